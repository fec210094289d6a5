//! Rows as C hands them in.

ghost use Rattle.std.specs.Prelude.{◌≡◌, ◌<◌};
ghost use Rattle.spin_c.specs.Tellings.{row_from, row_to};
ghost use Rattle.spin_c.specs.Turns.{in_lane};

use spin_word::Row;

/// Four words, which may stand for a command.
#[repr(C)]
#[derive(Clone, Copy, PartialEq, Eq, Debug)]
pub struct SpinRow {
    /// What is done: mode, place, guard, handler, requester, event, lane and op.
    pub a: u64,
    /// The target.
    pub b: u64,
    /// The four entries of `before`.
    pub c: u64,
    /// The four entries of `after`.
    pub d: u64,
}

// The same row.
pub(crate) fn row_from(row: &SpinRow) -> Row
    ensures { result ≡ row_from row.now }
{
    Row {
        a: row.a,
        b: row.b,
        c: row.c,
        d: row.d,
    }
}

// The row as C has it.
pub(crate) fn row_to(row: &Row) -> SpinRow
    ensures { result ≡ row_to row.now }
{
    SpinRow {
        a: row.a,
        b: row.b,
        c: row.c,
        d: row.d,
    }
}

// The same row, of this lane.
pub(crate) fn in_lane(row: &Row, lane: u8) -> Row
    requires { lane < 16 }
    ensures { result ≡ in_lane lane row.now }
{
    let (low, high) = (row.a % (1 << 49), row.a >> 53);
    Row {
        a: low + (u64::from(lane) << 49) + (high << 53),
        b: row.b,
        c: row.c,
        d: row.d,
    }
}
