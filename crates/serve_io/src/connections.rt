//! Connections in memory: those to come, and those that were handed back.
ghost use Rattle.std.specs.Prelude.{◌≡◌, ◌≤◌, ◌+◌, ◌-◌, true, false, [], ◌∷◌, ◌++◌, length, IfOk, IfSome, IfNone};
ghost use Rattle.std.specs.VecDeque.{deque_len};
ghost use Rattle.std.specs.Vec.{vec_len, vec_capacity};

use json_tree::Text;
use std::alloc::{AllocError, Global};
use std::collections::VecDeque;

/// The most bytes of an address.
pub(crate) const MOST_ADDRESS: usize = 255;

/// The place for all ends and for the address is reserved when it is made. `out` counts the connections that were given, less
/// those that were handed back.
#[derive(Debug, Drop)]
pub(crate) struct Connections<I, O> {
    pub coming: VecDeque<(I, O)>,
    pub back: Vec<(I, O)>,
    pub out: usize,
    pub address: Vec<u8>,
    pub listens: bool,
    ghost place: { out + deque_len coming + vec_len back ≤ vec_capacity back },
    ghost room: { 255 ≤ vec_capacity address },
}

impl<I: Drop, O: Drop> Connections<I, O> {
    /// These connections are to come.
    pub fn new(alloc: Global, connections: Vec<(I, O)>) -> Result<Connections<I, O>, AllocError>
        ensures coming { IfOk result (λ c. c.coming.items ≡ connections.items) }
        ensures back { IfOk result (λ c. c.back.items ≡ []) }
        ensures listens { IfOk result (λ c. c.listens ≡ false) }
        ensures address { IfOk result (λ c. c.address.items ≡ []) }
        ensures out { IfOk result (λ c. c.out ≡ 0) }
    {
        let back = Vec::with_capacity(alloc, connections.len())?;
        let address = Vec::with_capacity(alloc, MOST_ADDRESS)?;
        Ok(Connections {
            coming: VecDeque::from(connections),
            back,
            out: 0,
            address,
            listens: false,
        })
    }

    /// Listens at an address.
    pub fn listen(&mut self, address: &Text)
        requires { length address.now ≤ MOST_ADDRESS }
        ensures listens { self.new.listens ≡ true }
        ensures address { self.new.address.items ≡ address.now }
        ensures coming { self.new.coming ≡ self.old.coming }
        ensures back { self.new.back ≡ self.old.back }
        ensures out { self.new.out ≡ self.old.out }
    {
        self.address.clear();
        let _ = self.address.extend_from_slice(address.bytes());
        self.listens = true;
    }

    /// The first connection to come.
    pub fn take(&mut self) -> Option<(I, O)>
        ensures some { IfSome result (λ ends. self.old.coming.items ≡ ends ∷ self.new.coming.items) }
        ensures none { IfNone result (self.old.coming.items ≡ []) }
        ensures same { IfNone result (self.new.coming.items ≡ self.old.coming.items) }
        ensures given { IfSome result (λ ends. self.new.out ≡ self.old.out + 1) }
        ensures out { IfNone result (self.new.out ≡ self.old.out) }
        ensures back { self.new.back ≡ self.old.back }
        ensures address { self.new.address ≡ self.old.address }
        ensures listens { self.new.listens ≡ self.old.listens }
    {
        let ends = self.coming.pop_front()?;
        self.out += 1;
        Some(ends)
    }

    /// Keeps the ends of a connection that was handed back.
    pub fn put_back(&mut self, input: I, output: O)
        requires { 1 ≤ self.old.out }
        ensures back { self.new.back.items ≡ self.old.back.items ++ (input, output) ∷ [] }
        ensures coming { self.new.coming ≡ self.old.coming }
        ensures address { self.new.address ≡ self.old.address }
        ensures listens { self.new.listens ≡ self.old.listens }
        ensures out { self.new.out ≡ self.old.out - 1 }
    {
        self.out -= 1;
        let _ = self.back.push((input, output));
    }
}
