//! The counts of a filter, as lines.

ghost use Rattle.std.specs.Prelude.{◌≡◌, ◌++◌, map, IfOk, OnOk};
ghost use Rattle.spin_text.specs.Words.{ended, text_of};
ghost use Rattle.spinfilter.specs.Told.{count_line, count_lines, send_line, send_lines_from, hit_line, counts_text};

use spin_filter::{Counts, Filtered, Hit};
use spin_text::{end_line, put_number, put_word};
use spin_values::{NoMemory, Octets, Text};
use std::alloc::Global;

// Appends a line of a word and a number.
fn put_count(out: &mut Octets, word: &[u8], count: u64) -> Result<(), NoMemory>
    ensures { OnOk result (out.new ≡ out.old ++ ended (count_line word.now count)) }
{
    out.extend_from_slice(word)?;
    put_number(out, count)?;
    end_line(out)
}

// Appends the lines of these words and counts.
fn put_counts(out: &mut Octets, rows: &[(&[u8], u64)]) -> Result<(), NoMemory>
    ensures { OnOk result (out.new ≡ out.old ++ text_of (map (λ row. count_line row.0.now row.1) rows.now)) }
{
    for row in rows {
        put_count(out, row.0, row.1)?;
    }
    Ok(())
}

// The words and counts of records, commands, outcomes of raises, and packets that were dropped.
fn rows_of(filtered: Filtered, counts: &Counts) -> [(&'static [u8], u64); 20]
    ensures { map (λ row. count_line row.0.now row.1) result ≡ count_lines filtered counts.now }
{
    [
        (b"records", counts.records),
        (b"cut", filtered.cut),
        (b"accepted", u64::from(filtered.accepted)),
        (b"refused", filtered.refused),
        (b"jobs", counts.jobs),
        (b"runs", counts.runs),
        (b"value", counts.outcomes.of(0)),
        (b"done", counts.outcomes.of(1)),
        (b"default", counts.outcomes.of(2)),
        (b"nohandler", counts.outcomes.of(3)),
        (b"unknown_event", counts.outcomes.of(4)),
        (b"wrong_args", counts.outcomes.of(5)),
        (b"spent", counts.outcomes.of(6)),
        (b"drop short", counts.drops.of(1)),
        (b"drop version", counts.drops.of(2)),
        (b"drop header_length", counts.drops.of(3)),
        (b"drop total_length", counts.drops.of(4)),
        (b"drop checksum", counts.drops.of(5)),
        (b"drop fragment", counts.drops.of(6)),
        (b"drop udp_length", counts.drops.of(7)),
    ]
}

// Appends the line of the sends to the endpoint of that number and name.
fn put_send(out: &mut Octets, number: usize, name: &Text, counts: &Counts) -> Result<(), NoMemory>
    ensures { OnOk result (out.new ≡ out.old ++ ended (send_line number name.now counts.now)) }
{
    out.extend_from_slice(b"send")?;
    put_number(out, number as u64)?;
    put_word(out, name.as_slice())?;
    put_number(out, counts.sends.of(number))?;
    put_word(out, b"lost")?;
    put_number(out, counts.lost.of(number))?;
    end_line(out)
}

// Appends the lines of sends.
fn put_sends(out: &mut Octets, names: &[Text], counts: &Counts) -> Result<(), NoMemory>
    ensures { OnOk result (out.new ≡ out.old ++ text_of (send_lines_from 0 names.now counts.now)) }
{
    for number in 0..names.len() {
        put_send(out, number, &names[number], counts)?;
    }
    Ok(())
}

// Appends the line of a binding.
fn put_hit(out: &mut Octets, hit: &Hit) -> Result<(), NoMemory>
    ensures { OnOk result (out.new ≡ out.old ++ ended (hit_line hit.now)) }
{
    out.extend_from_slice(b"hit")?;
    put_number(out, u64::from(hit.event))?;
    put_number(out, u64::from(hit.number))?;
    put_number(out, hit.runs)?;
    put_word(out, b"let")?;
    put_number(out, hit.lets)?;
    end_line(out)
}

// Appends the lines of bindings.
fn put_hits(out: &mut Octets, hits: &[Hit]) -> Result<(), NoMemory>
    ensures { OnOk result (out.new ≡ out.old ++ text_of (map hit_line hits.now)) }
{
    for hit in hits {
        put_hit(out, hit)?;
    }
    Ok(())
}

/// All lines of the counts, where the endpoints of the script have these names.
pub fn told(
    alloc: Global,
    names: &[Text],
    filtered: Filtered,
    counts: &Counts,
) -> Result<Octets, NoMemory>
    ensures { IfOk result (λ text. text ≡ counts_text names.now filtered counts.now) }
{
    let rows = rows_of(filtered, counts);
    let mut text = Octets::new(alloc);
    put_counts(&mut text, rows.as_slice())?;
    put_sends(&mut text, names, counts)?;
    put_hits(&mut text, counts.hits.as_slice())?;
    Ok(text)
}
