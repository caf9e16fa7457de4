//! The loops that are open in a run. They borrow what they go over from the request's data.
ghost use Rattle.std.specs.Prelude.{◌≡◌, length};
ghost use Rattle.std.specs.Option.{option_map_or};
ghost use Rattle.data_tree.specs.Tree.{view, nothing};
ghost use Rattle.data_tree.specs.Parts.{items};
ghost use Rattle.template_code.specs.Machine.{key_of};

use data_tree::data::Data;

/// An open loop: the value whose items it goes over, how many they are, and the number of turns that are done.
#[derive(Clone, Copy)]
pub struct OpenLoop<'a> {
    over: Option<&'a Data>,
    count: usize,
    turn: usize,
    ghost counted: { count ≡ length (items (option_map_or (λ over. view over.now) over nothing)) },
}

// Fills the entries of a list of loops that aren't in use.
impl<'a> Default for OpenLoop<'a> {
    ghost use Rattle.template_machine.specs.Inner.Slots.{loop_view};

    ghost is_default = { λ empty. loop_view empty ≡ record { over = nothing; turn = 0 } };

    fn default() -> Self {
        OpenLoop {
            over: None,
            count: 0,
            turn: 0,
        }
    }
}

impl<'a> OpenLoop<'a> {
    ghost use Rattle.std.specs.Prelude.{pos, nat_eq, nat_lt, IfSome};
    ghost use Rattle.data_tree.specs.WellFormed.{IsWellFormed};
    ghost use Rattle.template_code.specs.Machine.{item_of, has_next};
    ghost use Rattle.template_machine.specs.Inner.Slots.{found_view, loop_view};
    ghost use Rattle.template_machine.specs.Inner.Loops.{IsAtItem, IsSoundLoop, next_turn, turns_left};

    /// At the first item.
    pub fn new(over: Option<&'a Data>) -> OpenLoop<'a>
        ensures { loop_view result ≡ record { over = found_view over.entry; turn = 0 } }
    {
        let count = match over {
            Some(over) => over.items_len(),
            None => 0,
        };
        OpenLoop {
            over,
            count,
            turn: 0,
        }
    }

    /// Whether there is an item to go over.
    pub fn has_items(self) -> bool
        ensures { result ≡ nat_lt 0 (length (items (found_view self.entry.over))) }
    {
        self.count > 0
    }

    /// The item that it is at.
    #[tactic(auto, using(crate::proofs::Loops::item_found))]
    pub fn item(self) -> Option<&'a Data>
        ensures found { found_view result ≡ item_of (loop_view self.entry) }
        ensures well_formed { IsWellFormed (found_view self.entry.over)
            → IfSome result (λ found. IsWellFormed (view found.now)) }
    {
        self.over?.item(self.turn)
    }

    /// The name of the item, or the empty text if it has none.
    pub fn key(self) -> &'a str
        ensures { result.now ≡ key_of (loop_view self.entry) }
    {
        match self.over {
            Some(over) => key_at(over, self.turn),
            None => "",
        }
    }

    /// The index of the item, from 0.
    pub fn index(self) -> i64
        requires { IsSoundLoop (loop_view self) }
        ensures { result ≡ pos self.entry.turn }
    {
        self.turn as i64
    }

    /// The number of turns that are done, which is the index of the item.
    pub fn turn(self) -> usize
        ensures { result ≡ self.entry.turn }
    {
        self.turn
    }

    pub fn is_first(self) -> bool
        ensures { result ≡ nat_eq self.entry.turn 0 }
    {
        self.turn == 0
    }

    /// Whether another item comes after it.
    pub fn has_next(self) -> bool
        requires { IsAtItem (loop_view self) }
        ensures { result ≡ has_next (loop_view self.entry) }
    {
        self.turn + 1 < self.count
    }

    /// The number of turns that aren't done.
    pub fn turns_left(self) -> usize
        requires { IsAtItem (loop_view self) }
        ensures { result ≡ turns_left (loop_view self.entry) }
    {
        self.count - self.turn
    }

    /// Goes on to the next item.
    pub fn advance(&mut self)
        requires { IsAtItem (loop_view self.old) }
        ensures { loop_view self.new ≡ next_turn (loop_view self.old) }
    {
        self.turn += 1;
    }
}

fn key_at<'a>(over: &'a Data, turn: usize) -> &'a str
    ensures { result.now ≡ key_of (record { over = view over.now; turn = turn }) }
{
    over.key(turn).unwrap_or("")
}
