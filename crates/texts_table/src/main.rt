// Reads a table of texts, and prints for each the record or the number, place and word of its fault.
#![tactic(auto)]

mod cases;

use cases::{CATALOGUES, PADDED_QUERIES, QUERIES};
use catalogue::Catalogue;
use faults::Fault;
use lexing::word;
use query::{Query, Term};
use source::Row;
use std::fmt;

// Bytes of a text, those that are no ASCII signs as numbers.
#[derive(Clone, Copy)]
struct Signs<'a>(&'a [u8]);

impl<'a> fmt::Display for Signs<'a> {
    fn fmt<W: fmt::Write>(&self, f: &mut fmt::Formatter<W>) -> fmt::Result {
        for byte in self.0 {
            if byte.is_ascii_graphic() {
                write!(f, "{}", char::from(*byte))?;
            } else {
                write!(f, "\\x{:02x}", *byte)?;
            }
        }
        Ok(())
    }
}

fn show_fault(
    rt: &HostRuntime,
    fault: &Fault,
    catalogue: &[u8],
    query: &[u8],
) -> anyhow::Result<()> {
    let number = fault.refusal.number();
    let shown = Signs(word(fault, catalogue, query));
    println!(rt; "{number} at {} [{shown}]", fault.detail)?;
    Ok(())
}

fn show_catalogue(rt: &HostRuntime, label: &str, text: &[u8]) -> anyhow::Result<()> {
    print!(rt; "{label}: ")?;
    match Catalogue::read(text) {
        Ok(catalogue) => {
            let sources = catalogue.source_count();
            let kinds = catalogue.kind_count();
            println!(rt; "accepted, {sources} sources, {kinds} kinds")?;
            Ok(())
        }
        Err(fault) => show_fault(rt, &fault, text, &[]),
    }
}

fn show_terms(rt: &HostRuntime, terms: &[Term]) -> anyhow::Result<()> {
    for (i, term) in terms.iter().enumerate() {
        if i > 0 {
            print!(rt; ",")?;
        }
        print!(rt; "{term}")?;
    }
    Ok(())
}

fn show_record(rt: &HostRuntime, q: &Query) -> anyhow::Result<()> {
    print!(rt; "accepted, head{}, literals", Row(q.head()))?;
    for literal in q.literals() {
        print!(rt; " {}(", literal.source())?;
        show_terms(rt, literal.terms())?;
        print!(rt; ")")?;
    }
    println!(rt; ", {} variables", q.variable_count())?;
    Ok(())
}

fn show_query(
    rt: &HostRuntime,
    catalogue: &Catalogue,
    label: &str,
    text: &[u8],
) -> anyhow::Result<()> {
    print!(rt; "{label}: ")?;
    match Query::read(*catalogue, text) {
        Ok(q) => show_record(rt, &q),
        Err(fault) => show_fault(rt, &fault, &[], text),
    }
}

// A query with blanks behind it up to a length, and then some more bytes.
fn show_padded(
    rt: &HostRuntime,
    catalogue: &Catalogue,
    label: &str,
    length: usize,
    more: &[u8],
) -> anyhow::Result<()> {
    let mut text = Vec::new(rt.alloc());
    text.extend_from_slice(b"q(N) :- recall(B,N).")?;
    text.resize(length, b' ')?;
    text.extend_from_slice(more)?;
    show_query(rt, catalogue, label, text.as_slice())
}

fn main(rt: HostRuntime) -> anyhow::Result<()> {
    for (label, text) in CATALOGUES {
        show_catalogue(&rt, label, text)?;
    }
    let text = b"pack pack:b module:f\nbatch module:b batch:f rest:f\nrecall batch:b notice:f\n";
    let catalogue = Catalogue::read(text)?;
    for (label, text) in QUERIES {
        show_query(&rt, &catalogue, label, text)?;
    }
    for (label, length, more) in PADDED_QUERIES {
        show_padded(&rt, &catalogue, label, length, more)?;
    }
    Ok(())
}
