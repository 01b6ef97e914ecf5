// What a journal tells of the claims of a run, in lines.
use dl_kinds::Claim;
use machine_core::{Event, Journal};
use std::alloc::{AllocError, Global};

fn add_claim(text: &mut String, alloc: Global, claim: &Claim) -> Result<(), AllocError> {
    let first = u64::from(claim.run.first);
    let last = (first + u64::from(claim.run.count)).saturating_sub(1);
    let mirror = claim.mirror;
    let line = format!(in alloc; "blocks {first} to {last} of mirror {mirror}\n")?;
    text.push_str(line.as_str())
}

/// A line for each claim that stood when the first block came.
pub fn first_claims(alloc: Global, journal: &Journal) -> Result<String, AllocError> {
    let mut text = String::new(alloc);
    for place in 0..journal.len() {
        match journal.get(place) {
            Some(Event::Claimed { claim, .. }) => add_claim(&mut text, alloc, claim)?,
            Some(Event::Landed { .. }) => return Ok(text),
            _ => {}
        }
    }
    Ok(text)
}
