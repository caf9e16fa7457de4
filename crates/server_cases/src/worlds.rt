//! Schedules: a row's cells are the steps of one.

use crate::steps::step;
use case_table::cells::Cells;
use case_table::row::Row;
use mapping_model::reply::Reply;
use std::alloc::{AllocError, Global};
use stub_book::book::Book;
use stub_response::limits::Limits;
use world_core::step::Step;
use world_core::world::World;

/// The status and the body of each reply, and then how many events there are. The steps are made at once, and then one
/// by one in another world: where the two differ the row does.
pub fn replies(alloc: Global, row: &Row) -> Result<String, AllocError> {
    let at_once = cells_at_once(alloc, row)?;
    let one_by_one = cells_one_by_one(alloc, row)?;
    if at_once.as_str() == one_by_one.as_str() {
        Ok(at_once)
    } else {
        format!(in alloc; "{at_once} or{one_by_one}")
    }
}

fn cells_at_once(alloc: Global, row: &Row) -> Result<String, AllocError> {
    let mut world = opened(alloc)?;
    let replies = made_at_once(&mut world, steps(alloc, row)?)?;
    let mut cells = Cells::new(alloc);
    for reply in replies.as_slice() {
        add_reply(&mut cells, reply);
    }
    add_count(alloc, &mut cells, &world)?;
    cells.finish()
}

fn cells_one_by_one(alloc: Global, row: &Row) -> Result<String, AllocError> {
    let mut world = opened(alloc)?;
    let mut cells = Cells::new(alloc);
    for cell in row.given.as_slice() {
        add_step(alloc, &mut cells, &mut world, cell.as_str())?;
    }
    add_count(alloc, &mut cells, &world)?;
    cells.finish()
}

fn add_step(
    alloc: Global,
    cells: &mut Cells,
    world: &mut World,
    cell: &str,
) -> Result<(), AllocError> {
    let reply = made(world, step(alloc, cell)?)?;
    add_reply(cells, &reply);
    Ok(())
}

fn steps(alloc: Global, row: &Row) -> Result<Vec<Step>, AllocError> {
    let mut steps = Vec::new(alloc);
    for cell in row.given.as_slice() {
        steps.push(step(alloc, cell.as_str())?)?;
    }
    Ok(steps)
}

// The calls of a world, each in a function of its own.

fn opened(alloc: Global) -> Result<World, AllocError> {
    Ok(World::new(alloc, empty_book(alloc)?, Limits::usual()))
}

fn empty_book(alloc: Global) -> Result<Book, AllocError> {
    Book::new(alloc, Vec::new(alloc), 0).ok().ok_or(AllocError)
}

fn made_at_once(world: &mut World, steps: Vec<Step>) -> Result<Vec<Option<Reply>>, AllocError> {
    world.run(steps).ok().ok_or(AllocError)
}

fn made(world: &mut World, step: Step) -> Result<Option<Reply>, AllocError> {
    world.step(step)
}

fn add_count(alloc: Global, cells: &mut Cells, world: &World) -> Result<(), AllocError> {
    let events = world.book().event_count();
    cells.add_cell(format!(in alloc; "{events} events")?.as_str());
    Ok(())
}

fn add_reply(cells: &mut Cells, reply: &Option<Reply>) {
    if let Some(reply) = reply {
        cells.add_cell("");
        cells.add_number(u32::from(reply.status));
        cells.add(" ");
        cells.add(std::str::from_utf8(reply.body.as_slice()).unwrap_or("not UTF-8"));
    }
}
