// Which request is next.
ghost use Rattle.std.specs.Prelude.{◌≡◌, ◌<◌, ◌≤◌, ◌+◌, ◌^◌, ℕ, List, None, Some, All, IsTrue, IsFalse, nat_le, length, slice_get};
ghost use Rattle.span_map.specs.declared.jobs.JobPart.{JobPart};
ghost use Rattle.span_map.specs.Jobs.{IsJobPart};

use dl_kinds::Text;
use range_http::Asked;
use span_map::{JobPart, JobParts};

/// Where a resource was moved to, by a reply of this status.
#[derive(Debug, Drop)]
pub(crate) struct Moved {
    pub url: Text,
    pub status: u16,
}

/// Parts of resources that are to come one after the other, and what is next of them.
#[derive(Debug, Drop)]
pub(crate) struct Course {
    parts: JobParts,
    /// The place of the part that is next, and of it the bytes that are still to come.
    place: usize,
    at: u64,
    len: u64,
    moved: Option<Moved>,
    /// How often it was moved.
    redirects: u32,
    ghost valid: { (place : ℕ) (part : JobPart) → slice_get parts place ≡ Some part → IsJobPart part },
    ghost current: { (part : JobPart) → slice_get parts place ≡ Some part → IsJobPart (record part { at = at; len = len }) },
}

/// How often the resource of one request may be moved.
pub const REDIRECT_LIMIT: u32 = 20;

// Where the part at a place begins, and its length. It doesn't matter where there is none.
fn bounds(parts: &JobParts, place: usize) -> (u64, u64)
    ensures { (part : JobPart) → slice_get parts.now place ≡ Some part → (result.0 ≡ part.at)
        × (result.1 ≡ part.len) }
{
    match parts.get(place) {
        Some(part) => (part.at, part.len),
        None => (0, 0),
    }
}

impl Course {
    ghost use Rattle.request_chain.specs.Courses.{plan_now, IsAsking, IfAsking};
    ghost use Rattle.request_chain.specs.Plans.{Ask, Over, Done, plan_of, plan_behind, asked_of};
    ghost use Rattle.request_chain.specs.declared.course.TheConstants.{REDIRECT_LIMIT};

    pub fn new(parts: JobParts) -> Self
        requires { All IsJobPart parts }
        ensures { plan_now result ≡ plan_of parts }
    {
        let (at, len) = bounds(&parts, 0);
        Course {
            parts,
            place: 0,
            at,
            len,
            moved: None,
            redirects: 0,
        }
    }

    pub fn is_over(&self) -> bool
        ensures over { IsTrue result → plan_now self.now ≡ Over Done }
        ensures asking { IsFalse result → IsAsking (plan_now self.now) }
    {
        self.place >= self.parts.len()
    }

    fn part(&self) -> &JobPart
        requires { self.now.place < length self.now.parts }
        ensures { slice_get self.now.parts self.now.place ≡ Some result.now }
    {
        self.parts.get(self.place).unwrap()
    }

    // The length of the resource.
    fn total(&self) -> u64
        requires { IsAsking (plan_now self.now) }
        ensures { (part : JobPart) × (slice_get self.now.parts self.now.place ≡ Some part)
            × (result ≡ part.total) }
    {
        self.part().total
    }

    /// What is asked for.
    pub fn asked(&self) -> Asked
        requires { IsAsking (plan_now self.now) }
        ensures asked { IfAsking (plan_now self.now)
            (λ part others url count status. result ≡ asked_of part) }
        ensures ordered { result.first ≤ result.last }
        ensures bounded { result.last + 1 < 2 ^ 64 }
        ensures total { (total : ℕ) × (result.total ≡ Some total) × (result.last < total) }
    {
        let total = self.total();
        Asked {
            first: self.at,
            last: self.at + self.len - 1,
            total: Some(total),
        }
    }

    /// Where it is asked.
    pub fn url(&self) -> &str
        requires { IsAsking (plan_now self.now) }
        ensures { IfAsking (plan_now self.now) (λ part others url count status. result.now ≡ url) }
    {
        match &self.moved {
            Some(moved) => moved.url.as_str(),
            None => self.part().url.as_str(),
        }
    }

    /// The status of the reply by which it was moved, or 0.
    pub fn status(&self) -> u16
        ensures { IfAsking (plan_now self.now) (λ part others url count status. result ≡ status) }
    {
        match &self.moved {
            Some(moved) => moved.status,
            None => 0,
        }
    }

    /// Whether it was moved as often as it may be.
    pub fn is_moved_often(&self) -> bool
        ensures value { IfAsking (plan_now self.now)
            (λ part others url count status. result ≡ nat_le REDIRECT_LIMIT count) }
        ensures few { IsFalse result → self.now.redirects < REDIRECT_LIMIT }
    {
        self.redirects >= REDIRECT_LIMIT
    }

    /// It was moved again.
    pub fn follow(&mut self, moved: Moved)
        requires { self.old.redirects < REDIRECT_LIMIT }
        ensures { IfAsking (plan_now self.old) (λ part others url count status.
            plan_now self.new ≡ Ask part others moved.url (count + 1) moved.status) }
    {
        self.redirects += 1;
        self.moved = Some(moved);
    }

    /// All came up to this place.
    pub fn come_to(&mut self, last: u64)
        requires { IsAsking (plan_now self.old) }
        ensures { IfAsking (plan_now self.old)
            (λ part others url count status. plan_now self.new ≡ plan_behind part others last) }
    {
        self.moved = None;
        self.redirects = 0;
        let end = self.asked().last;
        if last < end {
            self.len = end - last;
            self.at = last + 1;
        } else {
            self.go_on();
        }
    }

    // Goes on to the next part.
    fn go_on(&mut self)
        requires asking { IsAsking (plan_now self.old) }
        requires unmoved { self.old.moved ≡ None }
        requires unredirected { self.old.redirects ≡ 0 }
        ensures { IfAsking (plan_now self.old)
            (λ part others url count status. plan_now self.new ≡ plan_of others) }
    {
        let place = if self.place < self.parts.len() {
            self.place + 1
        } else {
            self.place
        };
        let (at, len) = bounds(&self.parts, place);
        self.place = place;
        self.at = at;
        self.len = len;
    }
}
