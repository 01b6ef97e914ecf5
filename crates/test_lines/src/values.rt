// Values that own memory: a program that has them replaced or dropped here proves no more than the call.

/// Puts a value in the place of another, which is dropped.
pub fn set<T: Drop>(place: &mut T, value: T) {
    *place = value;
}

/// Puts a value, if there is one, in the place of another.
pub fn set_some<T: Drop>(place: &mut T, value: Option<T>) {
    if let Some(value) = value {
        *place = value;
    }
}

/// Drops a value.
pub fn discard<T: Drop>(_value: T) {}
