// The places of the marks, in a list that is sorted by piece.
ghost use Rattle.std.specs.Prelude.{◌≡◌, ◌↔◌, ◌==◌, ℕ, ◌+◌, ◌<◌, ◌≤◌, ◌∷◌, List, Bool, length, filter, count_by, vec_capacity, vec_len, IsTrue, if◌then◌else◌};
ghost use Rattle.std.specs.List.{AllWithin};
ghost use Rattle.std.specs.List.Sorted.{IsNonDecreasingBy};
ghost use Rattle.mirror_blame.specs.Places.{stands_at, is_within, is_place_of};

/// Where a mark stands in the log, with what is looked for.
#[derive(Clone, Copy, Debug, PartialEq, Eq)]
pub struct Place {
    pub piece: u32,
    pub mirror: u16,
    pub at: usize,
}

/// Where the places from this piece on begin.
pub fn start_of(places: &[Place], piece: u64) -> usize
    requires { IsNonDecreasingBy (λ place. place.piece) places.now }
    ensures bound { result ≤ length places.now }
    ensures before { AllWithin (λ place. place.piece < piece) places.now 0 result }
    ensures from { AllWithin (λ place. piece ≤ place.piece) places.now result (length places.now) }
{
    places.partition_point(|place| (place.piece as u64) < piece)
}

/// The places of the pieces from `first` to `last`.
pub fn run_of(places: &[Place], first: u32, last: u32) -> &[Place]
    requires sorted { IsNonDecreasingBy (λ place. place.piece) places.now }
    requires order { first ≤ last }
    ensures run { result.now ≡ filter (is_within first last) places.now }
    ensures sorted { IsNonDecreasingBy (λ place. place.piece) result.now }
{
    let from = start_of(places, first as u64);
    let to = start_of(places, last as u64 + 1);
    &places[from..to]
}

/// Puts a place before the others of its piece. There has to be room.
pub fn put(places: &mut Vec<Place>, new: Place)
    requires sorted { IsNonDecreasingBy (λ place. place.piece) places.old.items }
    requires room { vec_len places.old < vec_capacity places.old }
    ensures sorted { IsNonDecreasingBy (λ place. place.piece) places.new.items }
    ensures each { (piece : ℕ) → filter (stands_at piece) places.new.items
        ≡ (if new.piece == piece then new ∷ filter (stands_at piece) places.old.items else filter
        (stands_at piece) places.old.items) }
    ensures len { vec_len places.new ≡ vec_len places.old + 1 }
    ensures capacity { vec_capacity places.new ≡ vec_capacity places.old }
{
    let at = start_of(places, new.piece as u64);
    places.insert(at, new).unwrap();
}

/// How many of the places are of this mirror.
pub fn count_of(places: &[Place], mirror: u16) -> usize
    ensures { result ≡ count_by (λ place. place.mirror == mirror) places.now }
{
    places.iter().filter(|place| place.mirror == mirror).count()
}

/// Whether the mirror has so many places, at least one, of one of the pieces.
pub fn has_used(places: &[Place], mirror: u16, tries: u8) -> bool
    requires sorted { IsNonDecreasingBy (λ place. place.piece) places.now }
    requires some { 1 ≤ tries }
    ensures { IsTrue result ↔ (piece : ℕ)
        × (tries ≤ count_by (is_place_of mirror piece) places.now) }
{
    let mut piece = 0;
    let mut used = 0;
    for place in places {
        if place.mirror == mirror {
            used = if place.piece == piece { used + 1 } else { 1 };
            piece = place.piece;
            if used == tries {
                return true;
            }
        }
    }
    false
}
