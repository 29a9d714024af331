// A line of text in a room of fixed size.
ghost use Rattle.std.specs.Prelude.{◌≡◌, List, ℕ, [], ◌++◌, ◌+◌, ◌≤◌, length, take};
ghost use Rattle.lines.specs.Text.{line_of, pair};

use std::marker::Model;

// A text at the front of its octets; zeros behind it.
#[derive(Clone, Copy)]
pub struct Line<const ROOM: usize> {
    octets: [u8; ROOM],
    length: usize,
}

// Clauses see the text. Of the text alone the fields can be told, as a value that is copied asks.
impl<const ROOM: usize> Model for Line<ROOM> {
    ghost use Rattle.std.specs.Prelude.{◌≡◌, List, ℕ, ◌-◌, ◌≤◌, take, replicate};
    ghost use Rattle.std.specs.Prelude as prelude;
    ghost use Rattle.std.proofs.Common.{arith, sym, ap, length-append, length-take-le};
    ghost use Rattle.std.proofs.lemmas.List.{length-replicate};
    ghost use Rattle.lines.specs.Text.{line_of};

    ghost Value = { List ℕ };

    ghost view = { λ l. take l.length l.octets };

    ghost invariant = { λ l. (l.length ≤ ROOM) × (l.octets ≡ line_of ROOM (take l.length l.octets)) };

    ghost inverse = { λ text. record { octets = line_of ROOM text; length = prelude.length text } };

    ghost inverse_ok = { λ l h i.
        let text : List ℕ = take l.length l.octets in
        let room : ℕ = ROOM - prelude.length text in
        let zero : ℕ = 0 in
        record {
          octets = sym h.1 i;
          length = length-take-le l.length l.octets
              (omega (arith, h.0, ap prelude.length h.1, length-append text (replicate room zero), length-replicate room zero)) i;
        } };
}

impl<const ROOM: usize> Line<ROOM> {
    pub(crate) fn new() -> Self
        ensures { result ≡ [] }
    {
        Line {
            octets: [0; ROOM],
            length: 0,
        }
    }

    pub fn as_octets(&self) -> &[u8]
        ensures { result.now ≡ self.now }
    {
        &self.octets[..self.length]
    }

    pub(crate) fn push(&mut self, text: &[u8])
        requires { length self.old + length text.now ≤ ROOM }
        ensures { self.new ≡ self.old ++ text.now }
    {
        let room = &mut self.octets[..];
        self.length += octets::copy(text, &mut room[self.length..]);
    }

    // A word, and the number behind it: 20 digits at most.
    pub(crate) fn push_pair(&mut self, word: &[u8], n: u64)
        requires { length self.old + length word.now + 20 ≤ ROOM }
        ensures text { self.new ≡ self.old ++ pair word.now n }
        ensures at_most_20_digits { length self.new ≤ length self.old + length word.now + 20 }
    {
        let mut digits = [0u8; 20];
        let k = io::decimal(n, &mut digits);
        self.push(word);
        self.push(&digits[..k]);
    }
}
