// The catalogue and the queries of the cabinet, read from files.
use catalogue::Catalogue;
use faults::Fault;
use lexing::word;
use ordering::order;
use query::Query;
use source::Row;
use std::rt::Files;
use std::{fmt, fs};

// Bytes of a text, as characters; the table of texts shows its own, with escapes.
#[derive(Clone, Copy)]
struct Letters<'a>(&'a [u8]);

impl<'a> fmt::Display for Letters<'a> {
    fn fmt<W: fmt::Write>(&self, f: &mut fmt::Formatter<W>) -> fmt::Result {
        for byte in self.0 {
            write!(f, "{}", char::from(*byte))?;
        }
        Ok(())
    }
}

// Prints the refusal of a text with its number, its place and the word there.
fn show_refusal(
    rt: &impl Print,
    fault: Fault,
    catalogue: &[u8],
    query: &[u8],
) -> anyhow::Result<()> {
    let shown = Letters(word(&fault, catalogue, query));
    println!(rt; "{} at byte {}, word {shown}", fault.refusal, fault.detail)?;
    Ok(())
}

// Prints the order of a query's literals, or the refusal with the literal's place.
fn show_places(rt: &impl Print, query: &Query) -> anyhow::Result<()> {
    match order(query) {
        Ok(order) => println!(rt; "order{}", Row(order.places()))?,
        Err(fault) => println!(rt; "{} at literal {}", fault.refusal, fault.literal)?,
    }
    Ok(())
}

// Reads a query over the catalogue's text, and prints the order of its literals, or why it has none.
pub fn show_order(
    rt: &(impl Files + Print + AllocGlobal),
    catalogue_path: &str,
    query_path: &str,
) -> anyhow::Result<()> {
    let catalogue_text = fs::read(rt, catalogue_path)?;
    let query_text = fs::read(rt, query_path)?;
    let catalogue = match Catalogue::read(&catalogue_text) {
        Ok(catalogue) => catalogue,
        Err(fault) => {
            print!(rt; "catalogue {catalogue_path}: ")?;
            return show_refusal(rt, fault, &catalogue_text, &query_text);
        }
    };
    print!(rt; "query {query_path}: ")?;
    match Query::read(catalogue, &query_text) {
        Ok(query) => show_places(rt, &query),
        Err(fault) => show_refusal(rt, fault, &catalogue_text, &query_text),
    }
}
