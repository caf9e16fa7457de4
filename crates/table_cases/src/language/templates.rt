//! Templates: how they are read, and their code.

use crate::language::answers::error_cell;
use crate::language::code::code_cells;
use case_table::cells::Cells;
use data_tree::step::{Path, Step};
use std::alloc::{AllocError, Global};
use template_compile::compiler::compile;
use template_tags::expression::{Datum, Expression};
use template_tree::error::{ParseError, TemplateError};
use template_tree::node::Node;
use template_tree::parser::parse;
use template_tree::template::Template;

/// The parts of a template, or its error's number and offset.
pub fn tree(alloc: Global, text: &str) -> Result<String, AllocError> {
    match parse(alloc, text) {
        Ok(template) => parts(alloc, template),
        Err(ParseError::Template(error)) => refused(alloc, error),
        Err(ParseError::OutOfMemory) => Err(AllocError),
    }
}

fn refused(alloc: Global, error: TemplateError) -> Result<String, AllocError> {
    error_cell(alloc, error.error_code().number(), Some(error.at))
}

fn parts(alloc: Global, template: Template) -> Result<String, AllocError> {
    let nodes = template.into_nodes();
    let mut cells = Cells::new(alloc);
    cells.add("\t");
    for node in &nodes {
        add_node(&mut cells, node);
    }
    cells.finish()
}

// No text spells another node or expression so far.
fn add_node(cells: &mut Cells, node: &Node) {
    match node {
        Node::Piece(piece) => add_text(cells, piece.as_str()),
        Node::Print(_, Expression::Datum(datum)) => add_datum(cells, datum),
        _ => cells.add("{unknown}"),
    }
}

/// Appends a text between bars.
pub fn add_text(cells: &mut Cells, text: &str) {
    cells.add("|");
    cells.add(text);
    cells.add("|");
}

fn add_datum(cells: &mut Cells, datum: &Datum) {
    match datum {
        Datum::Nothing => cells.add("{nothing}"),
        Datum::Root(path) => {
            cells.add("{root");
            add_path(cells, path);
        }
        Datum::Item { up, steps } => {
            cells.add("{item ");
            cells.add_number(*up);
            add_path(cells, steps);
        }
        Datum::BodyPath(text) => {
            cells.add("{body ");
            cells.add(text.as_str());
            cells.add("}");
        }
    }
}

/// Appends each step after a slash, an index after `#`, and a closing brace.
pub fn add_path(cells: &mut Cells, path: &Path) {
    for step in path.steps() {
        add_step(cells, step);
    }
    cells.add("}");
}

fn add_step(cells: &mut Cells, step: &Step) {
    match step {
        Step::Name(name) => {
            cells.add("/");
            cells.add(name.as_str());
        }
        Step::Index(index) => {
            cells.add("/#");
            cells.add_number(*index);
        }
    }
}

/// The listing of a template's code, its texts and its paths. No text of the table has an error.
pub fn compiled(alloc: Global, text: &str) -> Result<String, AllocError> {
    let template = parse(alloc, text).ok().ok_or(AllocError)?;
    let code = compile(alloc, template).ok().ok_or(AllocError)?;
    code_cells(alloc, &code)
}
