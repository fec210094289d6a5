//! The limits of what words may say.

ghost use Rattle.spin_grammar.specs.Limits.{AreStated};

use spin_policy::MAX_GUARDS;
use spin_values::MAX_PARAMS;
use spin_word::{GUARD_LIMIT, HANDLER_LIMIT, MAX_EVENTS, MAX_PLACE};

/// The most bytes of a text.
pub const MAX_TEXT: usize = 1_048_576;

/// The most bytes of a name.
pub const MAX_NAME: usize = 16;

/// The most modules.
pub const MAX_MODULES: u64 = 256;

/// The greatest number of a module.
pub const LAST_MODULE: u64 = MAX_MODULES - 1;

/// The greatest number of an event.
pub const LAST_EVENT: u64 = MAX_EVENTS as u64 - 1;

/// The greatest number of an endpoint.
pub const LAST_ENDPOINT: u64 = 63;

/// The greatest number of a handler.
pub const LAST_HANDLER: u64 = HANDLER_LIMIT as u64 - 1;

/// The greatest number of a guard.
pub const LAST_GUARD: u64 = GUARD_LIMIT as u64 - 1;

/// The greatest number that the word behind `lane` may say, whichever lanes there are.
pub const LAST_LANE: u64 = u8::MAX as u64;

/// The greatest number of a binding that is named in version 3.
pub const LAST_PLACE: u64 = MAX_PLACE as u64;

/// The greatest number of a binding that is named in versions 1 and 2.
pub const LAST_TARGET: u64 = 1023;

/// The most bindings before which, or after which, a binding goes.
pub const MAX_NAMED: u64 = 4;

/// The greatest number of an argument.
pub const LAST_ARGUMENT: u64 = MAX_PARAMS as u64 - 1;

/// The most parts of a raise upwards.
pub const MAX_PARTS: u64 = MAX_PARAMS as u64;

/// The greatest offset or length of bytes.
pub const MAX_OFFSET: u64 = u16::MAX as u64;

/// The greatest width of a field that a word may say; an expression that is kept may have a lower
/// limit.
pub const MAX_WIDTH: u64 = u8::MAX as u64;

/// The greatest quota.
pub const MAX_QUOTA: u64 = 1000;

/// The most guards that a rule imposes or forces.
pub const MAX_IMPOSED: u64 = MAX_GUARDS as u64;

/// The most records that a packet line asks for.
pub const MAX_PACKETS: u64 = 65536;

/// The limits that the definitions cite have the values that the documents give them.
pub fn limits_are_stated()
    ensures { AreStated }
{}
