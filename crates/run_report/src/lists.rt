// Lists of what is told.
ghost use Rattle.std.specs.Prelude.{◌≡◌, ◌==◌, ◌++◌, ◌∷◌, [], length, OnOk, OnErr, slice_get, option_copied};

use crate::{FileView, StatusView, UriView};
use dl_kinds::Text;
use std::alloc::{AllocError, Global};
use std::marker::Model;

/// What is told of the mirrors of a file, in their order.
#[derive(Debug, Drop)]
pub struct UriViews {
    uris: Vec<UriView>,
}

impl Model for UriViews {
    ghost use Rattle.std.specs.Prelude.{List};
    ghost use Rattle.run_report.specs.declared.views.UriView.{UriView};

    ghost Value = { List UriView };

    ghost view = { λ l. l.uris.items };
}

impl UriViews {
    /// A list of none.
    pub fn new(alloc: Global) -> Self
        ensures { result ≡ [] }
    {
        UriViews {
            uris: Vec::new(alloc),
        }
    }

    /// Adds a mirror at the end, in memory of the allocator that the list was made with.
    pub fn push(&mut self, view: UriView) -> Result<(), AllocError>
        ensures ok { OnOk result (self.new ≡ self.old ++ view ∷ []) }
        ensures err { OnErr result (self.new ≡ self.old) }
    {
        self.uris.push(view)?;
        Ok(())
    }

    pub fn len(&self) -> usize
        ensures { result ≡ length self.now }
    {
        self.uris.len()
    }

    pub fn is_empty(&self) -> bool
        ensures { result ≡ (length self.now == 0) }
    {
        self.uris.is_empty()
    }

    /// The one at this place, from 0.
    pub fn get(&self, place: usize) -> Option<&UriView>
        ensures { option_copied result ≡ slice_get self.now place }
    {
        self.uris.get(place)
    }

    pub fn as_slice(&self) -> &[UriView]
        ensures { result.now ≡ self.now }
    {
        &self.uris
    }
}

/// What is told of the files of a payload, in their order.
#[derive(Debug, Drop)]
pub struct FileViews {
    files: Vec<FileView>,
}

impl Model for FileViews {
    ghost use Rattle.std.specs.Prelude.{List};
    ghost use Rattle.run_report.specs.declared.views.FileView.{FileView};

    ghost Value = { List FileView };

    ghost view = { λ l. l.files.items };
}

impl FileViews {
    /// A list of none.
    pub fn new(alloc: Global) -> Self
        ensures { result ≡ [] }
    {
        FileViews {
            files: Vec::new(alloc),
        }
    }

    /// Adds a file at the end, in memory of the allocator that the list was made with.
    pub fn push(&mut self, view: FileView) -> Result<(), AllocError>
        ensures ok { OnOk result (self.new ≡ self.old ++ view ∷ []) }
        ensures err { OnErr result (self.new ≡ self.old) }
    {
        self.files.push(view)?;
        Ok(())
    }

    pub fn len(&self) -> usize
        ensures { result ≡ length self.now }
    {
        self.files.len()
    }

    pub fn is_empty(&self) -> bool
        ensures { result ≡ (length self.now == 0) }
    {
        self.files.is_empty()
    }

    /// The one at this place, from 0.
    pub fn get(&self, place: usize) -> Option<&FileView>
        ensures { option_copied result ≡ slice_get self.now place }
    {
        self.files.get(place)
    }

    pub fn as_slice(&self) -> &[FileView]
        ensures { result.now ≡ self.now }
    {
        &self.files
    }
}

/// What is told of downloads.
#[derive(Debug, Drop)]
pub struct StatusViews {
    statuses: Vec<StatusView>,
}

impl Model for StatusViews {
    ghost use Rattle.std.specs.Prelude.{List};
    ghost use Rattle.run_report.specs.declared.views.StatusView.{StatusView};

    ghost Value = { List StatusView };

    ghost view = { λ l. l.statuses.items };
}

impl StatusViews {
    /// A list of none.
    pub fn new(alloc: Global) -> Self
        ensures { result ≡ [] }
    {
        StatusViews {
            statuses: Vec::new(alloc),
        }
    }

    /// Adds a download at the end, in memory of the allocator that the list was made with.
    pub fn push(&mut self, view: StatusView) -> Result<(), AllocError>
        ensures ok { OnOk result (self.new ≡ self.old ++ view ∷ []) }
        ensures err { OnErr result (self.new ≡ self.old) }
    {
        self.statuses.push(view)?;
        Ok(())
    }

    pub fn len(&self) -> usize
        ensures { result ≡ length self.now }
    {
        self.statuses.len()
    }

    pub fn is_empty(&self) -> bool
        ensures { result ≡ (length self.now == 0) }
    {
        self.statuses.is_empty()
    }

    /// The one at this place, from 0.
    pub fn get(&self, place: usize) -> Option<&StatusView>
        ensures { option_copied result ≡ slice_get self.now place }
    {
        self.statuses.get(place)
    }

    pub fn as_slice(&self) -> &[StatusView]
        ensures { result.now ≡ self.now }
    {
        &self.statuses
    }
}

/// Names, each with its value.
#[derive(Debug, Drop)]
pub struct Pairs {
    pairs: Vec<(Text, Text)>,
}

impl Model for Pairs {
    ghost use Rattle.std.specs.Prelude.{List, ℕ};

    ghost Value = { List (List ℕ × List ℕ) };

    ghost view = { λ p. p.pairs.items };
}

impl Pairs {
    pub fn of(pairs: Vec<(Text, Text)>) -> Self
        ensures { result ≡ pairs.items }
    {
        Pairs { pairs }
    }

    pub fn len(&self) -> usize
        ensures { result ≡ length self.now }
    {
        self.pairs.len()
    }

    pub fn is_empty(&self) -> bool
        ensures { result ≡ (length self.now == 0) }
    {
        self.pairs.is_empty()
    }

    /// The pair at this place, from 0.
    pub fn get(&self, place: usize) -> Option<&(Text, Text)>
        ensures { option_copied result ≡ slice_get self.now place }
    {
        self.pairs.get(place)
    }

    pub fn as_slice(&self) -> &[(Text, Text)]
        ensures { result.now ≡ self.now }
    {
        &self.pairs
    }
}
