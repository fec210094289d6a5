//! What is read of the arguments.

ghost use Rattle.std.specs.Prelude.{◌≡◌, if◌then◌else◌, Some, None};
ghost use Rattle.std.specs.Option.{option_map};
ghost use Rattle.spin_code.specs.Value.{value_of};
ghost use Rattle.spin_plan.specs.Planned.{expr_of};
ghost use Rattle.spin_plan.specs.Inner.Reads.{is_read};

use spin_code::{Expr, argument_word, value};
use spin_values::Args;

// An argument, or a field of one: what a key may be, where an expression may be anything.
#[derive(Clone, Copy, Debug)]
pub(crate) enum Read {
    // An argument as a word.
    Arg(u8),
    // A field of an argument.
    Field {
        // The argument.
        arg: u8,
        // Where the field begins, in bytes.
        offset: u16,
        // Its width in bytes.
        width: u8,
    },
}

impl Read {
    // Its value on these arguments.
    #[inline]
    pub(crate) fn value(&self, args: &Args) -> u64
        ensures { result ≡ value_of (expr_of self.now) args.now }
    {
        match self {
            Read::Arg(arg) => argument_word(args, *arg),
            Read::Field { .. } => value(&self.expr(), args),
        }
    }

    // What is read, as an expression.
    #[inline]
    pub(crate) fn expr(&self) -> Expr
        ensures { result ≡ expr_of self.now }
    {
        match self {
            Read::Arg(arg) => Expr::Arg(*arg),
            Read::Field { arg, offset, width } => Expr::Field {
                arg: *arg,
                offset: *offset,
                width: *width,
            },
        }
    }
}

// What an expression reads, where it is an argument or a field of one.
pub(crate) fn read_of(e: &Expr) -> Option<Read>
    ensures { option_map expr_of result ≡ if is_read e.now then Some e.now else None }
{
    match e {
        Expr::Arg(arg) => Some(Read::Arg(*arg)),
        Expr::Field { arg, offset, width } => Some(Read::Field {
            arg: *arg,
            offset: *offset,
            width: *width,
        }),
        _ => None,
    }
}
