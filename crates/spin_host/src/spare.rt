//! Room that raises have left, which the next ones take over.

ghost use Rattle.std.specs.Prelude.{◌≡◌, []};

use crate::gift::{Gift, Given};
use spin_objects::{Item, Outcome};
use spin_values::{Args, Octets, Sequence, Value};
use std::alloc::Global;
use std::marker::Model;
use std::mem;

// How many lists of arguments are kept, and how many of bytes.
const LISTS: usize = 64;

const BYTES: usize = 16;

// Lists that raises have left.
#[derive(Drop)]
struct Lists {
    args: Sequence<Args>,
    bytes: Sequence<Octets>,
    gift: Gift,
}

/// Lists that raises have left, which are taken for the room that they have. What they had is nothing to anybody, so
/// contracts see nothing of them. They lie in one block of memory, so that a handle lends them as one pointer.
#[derive(Drop)]
pub struct Spare {
    lists: Option<Box<Lists>>,
}

impl Model for Spare {
    ghost Value = { Unit {0} };

    ghost view = { λ _. tt };
}

impl Lists {
    // A list for arguments, which has none.
    fn take_args(&mut self, alloc: Global) -> Args
        ensures { result ≡ [] }
    {
        match self.args.pop() {
            Some(args) => {
                let mut args = args;
                args.clear();
                args
            }
            None => Args::new(alloc),
        }
    }

    // A list for bytes, which has none.
    fn take_bytes(&mut self, alloc: Global) -> Octets
        ensures { result ≡ [] }
    {
        match self.bytes.pop() {
            Some(bytes) => {
                let mut bytes = bytes;
                bytes.clear();
                bytes
            }
            None => Octets::new(alloc),
        }
    }

    // A list for what a handler gives, which has nothing.
    fn take_gift(&mut self, alloc: Global) -> Gift
        ensures { result ≡ [] }
    {
        let mut gift = mem::replace(&mut self.gift, Gift::new(alloc));
        gift.clear();
        gift
    }

    // Keeps a list of arguments, and the bytes that they have.
    fn keep_args(&mut self, args: Args) {
        let mut args = args;
        while let Some(value) = args.pop() {
            self.keep_value(value);
        }
        if self.args.len() < LISTS {
            let _ = self.args.push(args);
        }
    }

    // Keeps a list of bytes.
    fn keep_bytes(&mut self, bytes: Octets) {
        if self.bytes.len() < BYTES {
            let _ = self.bytes.push(bytes);
        }
    }

    // Keeps a list of what a handler gives, and the bytes in it.
    fn keep_gift(&mut self, gift: Gift) {
        let mut gift = gift;
        while let Some(given) = gift.pop() {
            match given {
                Given::Result(_) => {}
                Given::Change { to, .. } => self.keep_value(to),
                Given::Send { bytes, .. } => self.keep_bytes(bytes),
            }
        }
        self.gift = gift;
    }

    // Keeps the bytes of a value, if it has some.
    fn keep_value(&mut self, value: Value) {
        if let Value::Bytes(bytes) = value {
            self.keep_bytes(bytes);
        }
    }
}

impl Spare {
    /// None so far. It takes no memory.
    pub fn new(_alloc: Global) -> Spare {
        Spare { lists: None }
    }

    // Makes the block, where there is none and there is memory for it.
    fn make_room(&mut self, alloc: Global) {
        if self.lists.is_none() {
            let lists = Lists {
                args: Sequence::new(alloc),
                bytes: Sequence::new(alloc),
                gift: Gift::new(alloc),
            };
            if let Ok(made) = Box::new(alloc, lists) {
                self.lists = Some(made);
            }
        }
    }

    /// A list for arguments, which has none. It takes no memory.
    pub fn take_args(&mut self, alloc: Global) -> Args
        ensures { result ≡ [] }
    {
        match &mut self.lists {
            Some(lists) => lists.take_args(alloc),
            None => Args::new(alloc),
        }
    }

    /// A list for bytes, which has none. It takes no memory.
    pub fn take_bytes(&mut self, alloc: Global) -> Octets
        ensures { result ≡ [] }
    {
        match &mut self.lists {
            Some(lists) => lists.take_bytes(alloc),
            None => Octets::new(alloc),
        }
    }

    /// A list for what a handler gives, which has nothing. It takes no memory.
    pub fn take_gift(&mut self, alloc: Global) -> Gift
        ensures { result ≡ [] }
    {
        match &mut self.lists {
            Some(lists) => lists.take_gift(alloc),
            None => Gift::new(alloc),
        }
    }

    /// Keeps a list of arguments, and the bytes that they have.
    pub fn keep_args(&mut self, args: Args) {
        self.make_room(args.allocator());
        if let Some(lists) = &mut self.lists {
            lists.keep_args(args);
        }
    }

    /// Keeps a list of bytes.
    pub fn keep_bytes(&mut self, bytes: Octets) {
        self.make_room(bytes.allocator());
        if let Some(lists) = &mut self.lists {
            lists.keep_bytes(bytes);
        }
    }

    /// Keeps a list of what a handler gives, and the bytes in it.
    pub fn keep_gift(&mut self, gift: Gift) {
        self.make_room(gift.allocator());
        if let Some(lists) = &mut self.lists {
            lists.keep_gift(gift);
        }
    }

    // Keeps the bytes of a value, if it has some.
    pub(crate) fn keep_value(&mut self, value: Value) {
        if let Value::Bytes(bytes) = value {
            self.keep_bytes(bytes);
        }
    }

    // Keeps what an item has.
    fn keep_item(&mut self, item: Item) {
        match item {
            Item::Send { bytes, .. } => self.keep_bytes(bytes),
            Item::Up { args, .. } | Item::Job { args, .. } => self.keep_args(args),
            Item::Ran(_) | Item::Result(_) | Item::Dropped(_) => {}
        }
    }

    // Takes all items out, and keeps what they have.
    pub(crate) fn keep_items(&mut self, items: &mut Outcome)
        ensures { items.new ≡ [] }
    {
        while let Some(item) = items.pop() {
            self.keep_item(item);
        }
    }
}
