// The parts of a program file: node records, variable records, procedure records and the trailer.
ghost use Rattle.std.specs.Prelude.{◌≡◌, ◌-◌, ◌≤◌, length, drop, IfOk};
ghost use Rattle.program.specs.Fields.{word_at};
ghost use Rattle.program.specs.Layout.{is_closing, in_order, in_number, layout_of, Covers};

use crate::refusal::Refusal;

// How many records of each part a file has.
#[derive(Clone, Copy)]
pub struct Layout {
    pub nodes: usize,
    pub variables: usize,
    pub procedures: usize,
}

// A match with the bytes themselves, before anything else of a file is read: a rule of the project.
fn is_closing(last: &[u8]) -> bool
    ensures { result ≡ is_closing last.now }
{
    match last {
        b"SCPT" => true,
        _ => false,
    }
}

// Whether the last four bytes of a file are the closing bytes.
fn is_closed(file: &[u8]) -> bool
    requires { 4 ≤ length file.now }
    ensures { result ≡ is_closing (drop (length file.now - 4) file.now) }
{
    is_closing(&file[file.len() - 4..])
}

// The places of the variables and of the procedures, highest byte first.
fn places(trailer: &[u8; 12]) -> (usize, usize)
    ensures variables { result.0 ≡ word_at trailer.now 0 }
    ensures procedures { result.1 ≡ word_at trailer.now 4 }
{
    let [v3, v2, v1, v0, p3, p2, p1, p0, ..] = *trailer;
    (
        u32::from_be_bytes([v3, v2, v1, v0]) as usize,
        u32::from_be_bytes([p3, p2, p1, p0]) as usize,
    )
}

// Whether the places rise up to the trailer and cut whole records.
fn is_in_order(variables: usize, procedures: usize, trailer: usize) -> bool
    ensures { result ≡ in_order variables procedures trailer }
{
    variables <= procedures
        && procedures <= trailer
        && variables % 12 == 0
        && (procedures - variables) % 8 == 0
        && (trailer - procedures) % 12 == 0
}

// Whether there are records enough, and not too many.
fn is_in_number(layout: Layout) -> bool
    ensures { result ≡ in_number layout }
{
    (1..=1024).contains(&layout.nodes)
        && layout.variables <= 128
        && (1..=32).contains(&layout.procedures)
}

impl Layout {
    // The layout of a file. Its closing bytes are looked at before anything else is read.
    pub fn read(file: &[u8]) -> Result<Layout, Refusal>
        ensures value { result ≡ layout_of file.now }
        ensures covers { IfOk result (Covers (length file.now)) }
    {
        let Some((records, trailer)) = file.split_last_chunk::<12>() else {
            return Err(Refusal::Closing);
        };
        if !is_closed(file) {
            return Err(Refusal::Closing);
        }
        let (variables, procedures) = places(trailer);
        let end = records.len();
        if !is_in_order(variables, procedures, end) {
            return Err(Refusal::Places);
        }
        let layout = Layout {
            nodes: variables / 12,
            variables: (procedures - variables) / 8,
            procedures: (end - procedures) / 12,
        };
        if !is_in_number(layout) {
            return Err(Refusal::Counts);
        }
        Ok(layout)
    }
}
