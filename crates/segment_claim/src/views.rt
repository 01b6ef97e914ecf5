// What is seen of claims, in fixed room.
ghost use Rattle.std.specs.Prelude.{◌≡◌, ◌<◌, ◌≤◌, ◌++◌, ◌∷◌, [], length, slice_get};

use dl_kinds::{ClaimView, Moment, Run};
use std::marker::Model;

/// The most views that a list has room for: as many as claims stand together.
const ROOM: usize = 64;

const BLANK: ClaimView = ClaimView {
    id: 0,
    since: Moment(0),
    landed: 0,
    unlanded: 0,
    own: Run { first: 0, count: 0 },
    able: false,
};

/// A list of at most 64 views of claims.
#[derive(Debug, Drop)]
pub struct Views {
    views: [ClaimView; ROOM],
    len: usize,
}

impl Model for Views {
    ghost use Rattle.std.specs.Prelude.{List, ◌≡◌, ◌≤◌, length, take};
    ghost use Rattle.dl_kinds.specs.declared.claims.ClaimView.{ClaimView};

    ghost Value = { List ClaimView };

    ghost view = { λ v. take v.len v.views };

    ghost invariant = { λ v. (v.len ≤ 64) × (length v.views ≡ 64) };
}

impl Views {
    /// A list of none.
    pub fn new() -> Self
        ensures { result ≡ [] }
    {
        Views {
            views: [BLANK; ROOM],
            len: 0,
        }
    }

    /// Takes out all views.
    pub fn clear(&mut self)
        ensures { self.new ≡ [] }
    {
        self.len = 0;
    }

    /// Adds a view at the end.
    pub fn push(&mut self, view: ClaimView)
        requires { length self.old < 64 }
        ensures { self.new ≡ self.old ++ view ∷ [] }
    {
        self.views[self.len] = view;
        self.len += 1;
    }

    pub fn len(&self) -> usize
        ensures len { result ≡ length self.now }
        ensures few { result ≤ 64 }
    {
        self.len
    }

    /// The view at this place, from 0.
    pub fn get(&self, place: usize) -> Option<ClaimView>
        ensures { result ≡ slice_get self.now place }
    {
        if place < self.len {
            Some(self.views[place])
        } else {
            None
        }
    }

    pub fn as_slice(&self) -> &[ClaimView]
        ensures { result.now ≡ self.now }
    {
        &self.views[..self.len]
    }
}
