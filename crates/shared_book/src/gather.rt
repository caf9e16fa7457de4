// All receipts of several seats.
ghost use Rattle.std.specs.Prelude.{◌≡◌, ◌++◌, IfOk, OnOk};
ghost use Rattle.shared_book.specs.Held.{all_lists, all_numbers, lists, receipts_of};
ghost use Rattle.shared_book.specs.Inner.Seat.{line_of, lines_in, lines_of};
ghost use Rattle.shared_book.specs.Receipts.{numbers, numbers_of};

use crate::origin::Origin;
use crate::pile::Pile;
use crate::receipt::Receipt;
use crate::receipt_list::ReceiptList;
use crate::seat::Seat;
use std::alloc::{AllocError, Global};

/// The numbers of all receipts.
pub(crate) fn gather_numbers<L: Origin>(
    alloc: Global,
    seats: &[Seat<L>],
) -> Result<Vec<u64>, AllocError>
    ensures { IfOk result (λ all. all.items ≡ all_numbers (all_lists seats.now)) }
{
    let mut all = Vec::new(alloc);
    for seat in seats {
        number_seat(&mut all, seat)?;
    }
    Ok(all)
}

fn number_seat<L: Origin>(all: &mut Vec<u64>, seat: &Seat<L>) -> Result<(), AllocError>
    ensures { OnOk result (all.new.items ≡ all.old.items ++ all_numbers (lists seat.now)) }
{
    number_list(all, &seat.lines.own)?;
    number_lists(all, seat.lines.joined.as_slice())
}

fn number_lists(all: &mut Vec<u64>, piles: &[Pile]) -> Result<(), AllocError>
    ensures { OnOk result (all.new.items ≡ all.old.items ++ all_numbers (lines_in piles.now)) }
{
    for pile in piles {
        number_pile(all, pile)?;
    }
    Ok(())
}

fn number_pile(all: &mut Vec<u64>, pile: &Pile) -> Result<(), AllocError>
    ensures { OnOk result (all.new.items ≡ all.old.items ++ all_numbers (lines_of pile.now)) }
{
    match pile {
        Pile::Whole(list) => number_list(all, list),
        Pile::Short(lists) => lists.add_to(all),
    }
}

fn number_list(all: &mut Vec<u64>, list: &ReceiptList) -> Result<(), AllocError>
    ensures { OnOk result (all.new.items ≡ all.old.items ++ numbers_of (line_of list.now)) }
{
    list.let_go.add_to(all)?;
    add_numbers(all, list.held.as_slice())
}

fn add_numbers(all: &mut Vec<u64>, receipts: &[Receipt]) -> Result<(), AllocError>
    ensures { OnOk result (all.new.items ≡ all.old.items ++ numbers receipts.now) }
{
    all.reserve(receipts.len())?;
    for receipt in receipts {
        let Ok(()) = all.push(receipt.number) else {
            unreachable!()
        };
    }
    Ok(())
}

/// Copies of all receipts that are held. They share the events.
pub(crate) fn gather<L: Origin>(
    alloc: Global,
    seats: &[Seat<L>],
) -> Result<Vec<Receipt>, AllocError>
    ensures { IfOk result (λ all. all.items ≡ receipts_of (all_lists seats.now)) }
{
    let mut all = Vec::new(alloc);
    for seat in seats {
        copy_seat(&mut all, seat)?;
    }
    Ok(all)
}

fn copy_seat<L: Origin>(all: &mut Vec<Receipt>, seat: &Seat<L>) -> Result<(), AllocError>
    ensures { OnOk result (all.new.items ≡ all.old.items ++ receipts_of (lists seat.now)) }
{
    copy_list(all, seat.lines.own.held.as_slice())?;
    copy_lists(all, seat.lines.joined.as_slice())
}

fn copy_lists(all: &mut Vec<Receipt>, piles: &[Pile]) -> Result<(), AllocError>
    ensures { OnOk result (all.new.items ≡ all.old.items ++ receipts_of (lines_in piles.now)) }
{
    for pile in piles {
        copy_pile(all, pile)?;
    }
    Ok(())
}

fn copy_pile(all: &mut Vec<Receipt>, pile: &Pile) -> Result<(), AllocError>
    ensures { OnOk result (all.new.items ≡ all.old.items ++ receipts_of (lines_of pile.now)) }
{
    match pile {
        Pile::Whole(list) => copy_list(all, list.held.as_slice()),
        Pile::Short(_) => Ok(()),
    }
}

fn copy_list(all: &mut Vec<Receipt>, list: &[Receipt]) -> Result<(), AllocError>
    ensures { OnOk result (all.new.items ≡ all.old.items ++ list.now) }
{
    all.reserve(list.len())?;
    for receipt in list {
        all.push(receipt.try_clone()?)?;
    }
    Ok(())
}
