// Runs many inputs of the statement program, one after another. Standard input has the cases, each its length in bytes,
// four bytes highest first, and then the input; standard output gets the number of each case and what the program
// prints for it. tools/vectors.py makes both files, the expected one by a model that shares no code with the crates.
#![tactic(auto)]

ghost use Rattle.std.specs.Prelude.{length};
ghost use Rattle.std.specs.Iterator.{at_most};

use std::alloc::{AllocError, Global};
use std::io::{Read, Write};

// The cases that are still to come; one that is not there as a whole ends them.
#[derive(Drop)]
struct Cases<'a>(&'a [u8]);

impl<'a> Iterator for Cases<'a> {
    type Item = &'a [u8];

    ghost remaining = { λ c. at_most (length c.0.now) };

    fn next(&mut self) -> Option<&'a [u8]> {
        let (length, rest) = self.0.split_first_chunk::<4>()?;
        let (case, rest) = rest.split_at_checked(u32::from_be_bytes(*length) as usize)?;
        self.0 = rest;
        Some(case)
    }
}

// Appends the number of a case and its output.
fn run_case(
    heap: Global,
    number: usize,
    input: &[u8],
    out: &mut Vec<u8>,
) -> Result<(), AllocError> {
    let title = format!(in heap; "case {number}\n")?;
    out.extend_from_slice(title.as_bytes())?;
    let text = clerk::statement(heap, input)?;
    out.extend_from_slice(text.as_slice())
}

// Runs all cases.
fn run_cases(heap: Global, cases: &[u8]) -> Result<Vec<u8>, AllocError> {
    let mut out = Vec::new(heap);
    for (number, input) in Cases(cases).enumerate() {
        run_case(heap, number, input, &mut out)?;
    }
    Ok(out)
}

fn main(rt: HostRuntime) -> anyhow::Result<()> {
    let mut cases = Vec::new(rt.alloc());
    rt.stdin().read_to_end(&mut cases)?;
    let output = run_cases(rt.alloc(), cases.as_slice())?;
    rt.stdout().write_all(output.as_slice())?;
    Ok(())
}
