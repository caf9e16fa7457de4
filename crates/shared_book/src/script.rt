// Two scripts of calls on a shared book, each in a thread of its own.
ghost use Rattle.std.specs.Prelude.{◌≡◌, ◌⊎◌, ◌<◌, ◌≤◌, ◌∷◌, ◌++◌, [], IfErr, IfOk, vec_capacity, vec_len};
ghost use Rattle.shared_book.specs.Script.{IsPlayed, IsStopped, IsUnplayed, Plays};

use crate::gate::Gate;
use crate::origin::Origin;
use crate::seat::Seat;
use crate::settle::{SettleError, settle};
use crate::settled::{SettleRefusal, Settled};
use crate::shared_book::SharedBook;
use mock_request::snapshot::Snapshot;
use request_journal::input::BookInput;
use std::alloc::Global;
use std::sync::Wait;
use std::thread;
use std::thread::Threads;

/// A call on a shared book.
#[derive(Drop)]
pub enum Call {
    Serve(Snapshot),
    Apply(BookInput),
}

/// Calls that are made one after the other.
#[derive(Drop)]
pub struct Script {
    pub calls: Vec<Call>,
}

/// Plays two scripts in a thread each, and settles. A call that is refused leaves no receipt, and its script goes on.
/// Where it can't settle, what the scripts did stands, and the book and the seats are handed back.
pub fn run_scripts<L: Origin + Send + Sync, R: Threads + Wait + Sync, G: Gate + Sync>(
    rt: &R,
    alloc: Global,
    shared: SharedBook<L>,
    seat: Seat<L>,
    first: Script,
    second: Script,
    gate: &G,
) -> Result<Settled, SettleError<L>>
    requires { 3 ≤ seat.parts }
    ensures played { IfOk result (IsPlayed L.origin L.book seat first.calls.items second.calls.items) }
    ensures stopped { IfErr result (λ error. IsUnplayed seat error.reason error.alone error.seats.items
        ⊎ IsStopped L.origin L.parts L.book seat first.calls.items second.calls.items error.reason error.alone
        error.seats.items) }
{
    let mut seat = seat;
    let mut seats = Vec::new(alloc);
    if let Err(_error) = seats.reserve(3) {
        return Err(SettleError {
            reason: SettleRefusal::OutOfMemory,
            shared,
            seats,
            alone: Some(seat),
        });
    }
    let one = seat.split(rt, &shared);
    let two = seat.split(rt, &shared);
    let book = &shared;
    let (one, two) = thread::join(
        rt,
        move || -> Seat<L>
            ensures { Plays L.origin one result first.calls.items }
        { play(rt, book, one, first, gate) },
        move || -> Seat<L>
            ensures { Plays L.origin two result second.calls.items }
        { play(rt, book, two, second, gate) },
    );
    let seats = all_of(seats, seat, one, two);
    settle(rt, alloc, shared, seats)
}

// The three seats, in a list that has room for them.
fn all_of<L: Origin>(room: Vec<Seat<L>>, a: Seat<L>, b: Seat<L>, c: Seat<L>) -> Vec<Seat<L>>
    requires empty { room.items ≡ [] }
    requires room { 3 ≤ vec_capacity room }
    ensures { result.items ≡ a ∷ b ∷ c ∷ [] }
{
    let mut seats = room;
    put(&mut seats, a);
    put(&mut seats, b);
    put(&mut seats, c);
    seats
}

// Adds the seat to a list that has room for it. Takes no memory.
fn put<L: Origin>(seats: &mut Vec<Seat<L>>, seat: Seat<L>)
    requires { vec_len seats.old < vec_capacity seats.old }
    ensures items { seats.new.items ≡ seats.old.items ++ seat ∷ [] }
    ensures room { vec_capacity seats.old ≤ vec_capacity seats.new }
{
    let Ok(()) = seats.push(seat) else {
        unreachable!()
    };
}

// Plays a script by a seat, and gives the seat back.
#[tactic(auto, using(crate::proofs::ScriptLemmas::plays_none, crate::proofs::ScriptLemmas::plays_on))]
fn play<L: Origin, R: Wait, G: Gate>(
    rt: &R,
    shared: &SharedBook<L>,
    seat: Seat<L>,
    script: Script,
    gate: &G,
) -> Seat<L>
    ensures { Plays L.origin seat result script.calls.items }
{
    let mut seat = seat;
    let Script { calls } = script;
    for call in calls {
        play_call(rt, shared, &mut seat, call, gate);
    }
    seat
}

fn play_call<L: Origin, R: Wait, G: Gate>(
    rt: &R,
    shared: &SharedBook<L>,
    seat: &mut Seat<L>,
    call: Call,
    gate: &G,
)
    ensures { Plays L.origin seat.old seat.new (call ∷ []) }
{
    match call {
        Call::Serve(request) => {
            if let Ok(receipt) = seat.serve(rt, shared, request) {
                gate.between_choice_and_render(receipt.number);
            }
        }
        Call::Apply(input) => {
            let _ = seat.apply(rt, shared, input);
        }
    }
}
