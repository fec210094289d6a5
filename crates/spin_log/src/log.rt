//! The log.

ghost use Rattle.std.specs.Prelude.{◌≡◌, ℕ, ◌+◌, ◌*◌, ◌-◌, ◌≤◌, ◌<◌, List, [], ◌∷◌, ◌++◌, All};
ghost use Rattle.std.specs.Prelude.{map, length, vec_capacity, IfOk};
ghost use Rattle.core.specs.Mem.Slots.{slots_items, slots_len, IsFull};
ghost use Rattle.spin_word.specs.declared.row.Row.{Row as RowValue};
ghost use Rattle.spin_word.specs.Rows.{lane_of};
ghost use Rattle.spin_word.specs.declared.command.TheConstants.{MAX_PLACE};
ghost use Rattle.spin_log.specs.Rows.{size_of, name_of, turn, IsRowOf, IsCommandBelow, row_words};
ghost use Rattle.spin_log.specs.Rows.{StandsAt};
ghost use Rattle.spin_log.specs.Inner.Places.{place_of, IsNameIn};
ghost use Rattle.spin_log.specs.History.{LogAction};
ghost use Rattle.spin_log.specs.Rule.{Stands, first_view, holding};
ghost use Rattle.spin_log.specs.Inner.Blank.{IsBlank};
ghost use Rattle.spin_log.specs.Steps.{longer, AreOfOne};
ghost use Rattle.spin_log.specs.Pens.{new_pens, pen_value, only_hand, with_front, IsSamePen};
ghost use Rattle.spin_log.specs.Pens.{StandsIn, IsHistory};
ghost use Rattle.spin_log.specs.Inner.Seats.{with_draft};

use crate::pen::{Note, Pen, Pens};
use crate::rule::{
    Drafts, Learns, LogRule, Looks, Notes, OnePen, Publishes, Rereads, Sits, TakesIn,
};
use crate::view::View;
use atomic_table::{Closed, Seat, Table};
use spin_values::{NoMemory, Sequence};
use spin_word::{MAX_LANES, MAX_PLACE, Row};
use std::alloc::Global;
use std::marker::Model;

// Where the lanes' rows begin: after the number of lanes, a log word for each row, and a word that stays 0.
const ROWS_START: usize = MAX_PLACE as usize + 2;

// How many words the rows of a lane have, four a row.
const PART_SIZE: usize = 4 * MAX_PLACE as usize;

// How many rows of a lane have names.
const NAMES_PER_LANE: u64 = MAX_PLACE as u64;

/// Rows, in order.
pub type Rows = Sequence<Row>;

/// Room for all rows that a log can have, which [`Log::close_into`] fills. Whoever has it knows that a log can be
/// closed without want of memory. It takes 131 kB.
#[derive(Drop)]
pub struct RowRoom {
    rows: Vec<Row>,
    ghost empty: { length rows.items ≡ 0 },
    ghost room: { MAX_PLACE ≤ vec_capacity rows },
}

/// What [`Log::look`] found.
#[derive(Debug, Clone, Copy, PartialEq, Eq)]
pub enum Look {
    /// The next row, which another lane published. The pen's front has it now.
    Entry(Row),
    /// No row. The pen has a pin more.
    Pinned,
}

/// What [`Log::publish`] did.
#[derive(Debug, Clone, Copy, PartialEq, Eq)]
pub enum Publish {
    /// It added the row right after the pen's front, which has it now.
    Done,
    /// Another lane had published this row there. The pen's front has that row now, and its own wasn't published.
    Lost(Row),
    /// Nothing, since the pen's front has [`MAX_PLACE`] rows.
    Full,
}

/// A list of rows that lanes share by reference and only add to. Contracts see which log it is, and how many
/// lanes it has. It takes 33 kB, and 131 kB for each lane.
#[derive(Drop)]
pub struct Log {
    table: Table<(), View, u64, LogRule, Global>,
}

impl Model for Log {
    ghost use Rattle.std.specs.Prelude.{◌≡◌, ◌≤◌};
    ghost use Rattle.spin_word.specs.declared.command.TheConstants.{MAX_LANES};
    ghost use Rattle.spin_log.specs.Rows.{size_of};
    ghost use Rattle.spin_log.specs.Pens.{LogValue};

    ghost Value = { LogValue };

    ghost view = { λ l. record { id = l.table.shared.table_id; lanes = l.table.shared.key } };

    ghost invariant = { λ l.
        (l.table.shared.table_id.words ≡ size_of l.table.shared.key)
        × (l.table.shared.table_id.slots ≡ 0)
        × (l.table.shared.key ≤ MAX_LANES) };
}

// The name of a lane's row, counted from 0: never 0, and no other row's.
fn row_name(lane: u8, turn: u16) -> u64
    ensures { result ≡ name_of lane turn }
{
    1 + NAMES_PER_LANE * u64::from(lane) + u64::from(turn)
}

// Where the row of this name begins.
fn place(name: u64) -> usize
    requires { (0 < name) × (name ≤ MAX_PLACE * MAX_LANES) }
    ensures { result ≡ place_of name }
{
    ROWS_START + 4 * (name as usize - 1)
}

// Word 0, and then zeros.
fn blank_words(alloc: Global, head: u64, count: usize) -> Result<Vec<u64>, NoMemory>
    requires { 0 < count }
    ensures { IfOk result (λ words. IsBlank head count words.items) }
{
    let mut words = vec![in alloc; 0u64; count]?;
    words[0] = head;
    Ok(words)
}

// The row of this name.
fn read_row(closed: &Closed<(), Global>, name: u64) -> Row
    requires words { IsFull closed.now.words }
    requires name { IsNameIn (slots_len closed.now.words) name }
    ensures { StandsAt (slots_items closed.now.words) (place_of name) (row_words result) }
{
    let first = place(name);
    Row {
        a: closed.word(first),
        b: closed.word(first + 1),
        c: closed.word(first + 2),
        d: closed.word(first + 3),
    }
}

// The rows that the log words name, up to the first 0.
fn read_rows(closed: &Closed<(), Global>, rows: &mut Vec<Row>)
    requires words { IsFull closed.now.words }
    requires stands { (lanes : ℕ) × (log : List RowValue)
        × (slots_len closed.now.words ≡ size_of lanes)
        × (lanes ≤ MAX_LANES)
        × Stands lanes log (slots_items closed.now.words) }
    requires empty { rows.old.items ≡ [] }
    requires room { MAX_PLACE ≤ vec_capacity rows.old }
    ensures { (lanes : ℕ) (log : List RowValue) →
        Stands lanes log (slots_items closed.now.words) → rows.new.items ≡ log }
{
    for at in 1..usize::from(MAX_PLACE) + 1 {
        let name = closed.word(at);
        if name == 0 {
            return;
        }
        rows.push_reserved(read_row(closed, name));
    }
}

impl RowRoom {
    /// The room, with no row in it.
    pub fn new(alloc: Global) -> Result<RowRoom, NoMemory> {
        Ok(RowRoom {
            rows: Vec::with_capacity(alloc, usize::from(MAX_PLACE))?,
        })
    }
}

impl Log {
    ghost use Rattle.spin_log.specs.Answers.{Looks as LooksSay, Publishes as PublishesSay};

    /// A log with no row, and a pen for each lane, from 1 lane to [`MAX_LANES`]: the k-th pen, from 0, is that of
    /// lane k, with an empty front, no own rows and no pins.
    pub fn new(alloc: Global, lanes: u8) -> Result<(Log, Pens), NoMemory>
        requires some { 0 < lanes }
        requires few { lanes ≤ MAX_LANES }
        ensures lanes { IfOk result (λ made. made.0.lanes ≡ lanes) }
        ensures pens { IfOk result (λ made. made.1 ≡ new_pens made.0.id lanes) }
    {
        let count = u64::from(lanes);
        let size = ROWS_START + PART_SIZE * usize::from(lanes);
        let words = blank_words(alloc, count, size)?;
        let (table, mut maker) = Table::of_words(alloc, words.as_slice(), &count)?;
        let log = Log { table };
        let pens = log.make_pens(alloc, &mut maker, lanes)?;
        Ok((log, pens))
    }

    // Splits a pen for each lane off the first seat.
    fn make_pens(
        &self,
        alloc: Global,
        maker: &mut Seat<(), View>,
        lanes: u8,
    ) -> Result<Pens, NoMemory>
        requires own { maker.old.table_id ≡ self.now.id }
        requires lanes { lanes ≡ self.now.lanes }
        requires all { maker.old.me ≡ (first_view lanes, []) }
        ensures { IfOk result (λ pens. pens ≡ new_pens self.now.id lanes) }
    {
        let mut pens = Pens::new(alloc);
        for lane in 0..lanes {
            let seat = self.table.shared.split_seat::<OnePen>(maker);
            pens.push(Pen {
                seat,
                lane,
                length: 0,
                published: 0,
            })?;
        }
        Ok(pens)
    }

    // Writes the row into the seat's lane, as a draft. The name is that of the lane's next row.
    fn draft(&self, seat: &mut Seat<(), View>, name: u64, row: Row)
        requires own { seat.old.table_id ≡ self.now.id }
        requires alone { seat.old.me
            ≡ (holding (with_draft [] (only_hand seat.old.me.0.hands) ∷ []), []) }
        requires next { let hand = only_hand seat.old.me.0.hands in
            name ≡ name_of hand.lane (length hand.own) }
        requires room { length (only_hand seat.old.me.0.hands).own < MAX_PLACE }
        requires name { IsNameIn self.now.id.words name }
        ensures own { seat.new.table_id ≡ seat.old.table_id }
        ensures drafted { seat.new.me
            ≡ (holding (with_draft (row_words row) (only_hand seat.old.me.0.hands) ∷ []), []) }
    {
        let first = place(name);
        self.table.shared.store::<Drafts>(seat, first, row.a);
        self.table.shared.store::<Drafts>(seat, first + 1, row.b);
        self.table.shared.store::<Drafts>(seat, first + 2, row.c);
        self.table.shared.store::<Drafts>(seat, first + 3, row.d);
    }

    // Loads the row of this name, which stands in the seat's front.
    fn row(&self, seat: &mut Seat<(), View>, name: u64) -> Row
        requires own { seat.old.table_id ≡ self.now.id }
        requires name { IsNameIn self.now.id.words name }
        ensures seat { (seat.new.table_id ≡ seat.old.table_id) × (seat.new.me ≡ seat.old.me) }
        ensures row { All (λ hand. (front : List RowValue) (row : RowValue) (rest : List RowValue) →
            hand.front ≡ front ++ row ∷ rest → name ≡ name_of (lane_of row) (turn front row) →
            result ≡ row) seat.old.me.0.hands }
    {
        let first = place(name);
        let a = self.table.shared.load::<Rereads>(seat, first);
        let b = self.table.shared.load::<Rereads>(seat, first + 1);
        let c = self.table.shared.load::<Rereads>(seat, first + 2);
        let d = self.table.shared.load::<Rereads>(seat, first + 3);
        Row { a, b, c, d }
    }

    /// Looks at the log word after the pen's front: `Entry` exactly where it names a row, which the front has
    /// then; `Pinned` exactly where it is 0, and a pin of the front's length is added. It is one load, and four
    /// more for the row's words. It takes neither memory nor time to wait.
    pub fn look(&self, pen: &mut Pen) -> Look
        requires { pen.old.log ≡ self.now.id }
        ensures answer { LooksSay pen.old result pen.new }
        ensures same { IsSamePen pen.old pen.new }
    {
        let at = usize::from(pen.length) + 1;
        let name = self.table.shared.load::<Looks>(&mut pen.seat, at);
        if name == 0 {
            return Look::Pinned;
        }
        let row = self.row(&mut pen.seat, name);
        pen.length += 1;
        Look::Entry(row)
    }

    /// Adds a row of the pen's lane right after the pen's front. `Full` exactly where the front has [`MAX_PLACE`]
    /// rows, and then nothing changes; `Done` exactly where the next log word was 0, and the front and the own
    /// rows have the row then; `Lost` exactly where it named another row, which the front has then. It is four
    /// stores and one exchange, and where it lost four loads. It takes neither memory nor time to wait.
    pub fn publish(&self, pen: &mut Pen, row: Row) -> Publish
        requires log { pen.old.log ≡ self.now.id }
        requires row { IsRowOf pen.old.lane row }
        ensures answer { PublishesSay pen.old row result pen.new }
        ensures same { IsSamePen pen.old pen.new }
    {
        if pen.length == MAX_PLACE {
            return Publish::Full;
        }
        let name = row_name(pen.lane, pen.published);
        self.draft(&mut pen.seat, name, row);
        let at = usize::from(pen.length) + 1;
        let found = self
            .table
            .shared
            .compare_exchange::<Publishes>(&mut pen.seat, at, 0, name);
        if found == 0 {
            pen.length += 1;
            pen.published += 1;
            return Publish::Done;
        }
        let other = self.row(&mut pen.seat, found);
        pen.length += 1;
        Publish::Lost(other)
    }

    // What the pen knows, for another pen.
    fn note(&self, pen: &mut Pen) -> Note
        requires { pen.old.log ≡ self.now.id }
        ensures pen { pen.new ≡ pen.old }
        ensures note { (result.log ≡ pen.old.log) × (result.front ≡ pen.old.front) }
    {
        let length = pen.length;
        let seat = self.table.shared.split_seat::<Notes>(&mut pen.seat);
        Note { seat, length }
    }

    // Tells the pen what another knew.
    fn tell(&self, pen: &mut Pen, note: Note)
        requires { (pen.old.log ≡ self.now.id) × (note.log ≡ self.now.id) }
        ensures one { AreOfOne pen.old.front note.front }
        ensures pen { pen.new ≡ with_front pen.old (longer pen.old.front note.front) }
    {
        let Note { seat, length } = note;
        self.table.shared.join_seat::<TakesIn>(&mut pen.seat, seat);
        self.table.shared.load::<Learns>(&mut pen.seat, 0);
        if pen.length < length {
            pen.length = length;
        }
    }

    /// Lets two pens know what each other knows: of the two fronts one begins the other, and afterwards both pens
    /// have the longer one. Lanes, own rows and pins stay. It takes neither memory nor time to wait.
    pub fn meet(&self, a: &mut Pen, b: &mut Pen)
        requires { (a.old.log ≡ self.now.id) × (b.old.log ≡ self.now.id) }
        ensures one { AreOfOne a.old.front b.old.front }
        ensures a { a.new ≡ with_front a.old (longer a.old.front b.old.front) }
        ensures b { b.new ≡ with_front b.old (longer a.old.front b.old.front) }
    {
        let of_a = self.note(a);
        let of_b = self.note(b);
        self.tell(a, of_b);
        self.tell(b, of_a);
    }

    // Joins all pens into one seat.
    fn gather(&self, pens: Pens) -> Seat<(), View>
        requires { All (λ pen. pen.log ≡ self.now.id) pens }
        ensures seat { (result.table_id ≡ self.now.id) × (result.me.1 ≡ []) }
        ensures pens { map (pen_value self.now.id) result.me.0.hands ≡ pens }
    {
        let mut items = pens.into_vec();
        let (_, mut taker) = self.table.shared.load_new_seat::<Sits>(0);
        while let Some(pen) = items.pop() {
            let Pen {
                seat,
                lane: _,
                length: _,
                published: _,
            } = pen;
            self.table.shared.join_seat::<TakesIn>(&mut taker, seat);
        }
        taker
    }

    /// All rows of the log, in order, where there is room for them. Each pen's front begins them; its own rows are
    /// exactly those of its lane, and all lie in its front; and the rows and the pins of all pens come from one
    /// history. So all pens of the log, handed in together, tell whose each row is. It takes no memory, and so can't
    /// fail. It takes time linear in the rows and the pens.
    pub fn close_into(self, room: RowRoom, pens: Pens) -> Rows
        requires { All (λ pen. pen.log ≡ self.id) pens }
        ensures pens { All (StandsIn result) pens }
        ensures history { (moments : List LogAction) × IsHistory result pens moments }
        ensures rows { All (IsCommandBelow self.lanes) result × (length result ≤ MAX_PLACE) }
    {
        let RowRoom { mut rows } = room;
        let taker = self.gather(pens);
        let Log { table } = self;
        let closed = table.close_with(taker);
        read_rows(&closed, &mut rows);
        closed.free();
        Rows::from_vec(rows)
    }

    /// All rows of the log, as [`Log::close_into`] gives them. After want of memory the log and the pens are gone.
    pub fn close(self, alloc: Global, pens: Pens) -> Result<Rows, NoMemory>
        requires { All (λ pen. pen.log ≡ self.id) pens }
        ensures pens { IfOk result (λ log. All (StandsIn log) pens) }
        ensures history { IfOk result
            (λ log. (moments : List LogAction) × IsHistory log pens moments) }
        ensures rows { IfOk result
            (λ log. All (IsCommandBelow self.lanes) log × (length log ≤ MAX_PLACE)) }
    {
        let room = RowRoom::new(alloc)?;
        Ok(self.close_into(room, pens))
    }
}
