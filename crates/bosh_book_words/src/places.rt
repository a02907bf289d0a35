//! What was given for calls and is not spent, as permits.

/// At most three things, each by the number of its call.
pub struct Places<T> {
    first: Option<(u64, T)>,
    second: Option<(u64, T)>,
    third: Option<(u64, T)>,
}

fn is_of<T>(place: &Option<(u64, T)>, n: u64) -> bool {
    match place {
        Some((number, _)) => *number == n,
        None => false,
    }
}

// What stands at a place, where it is that of the call.
fn seen<T>(place: &Option<(u64, T)>, n: u64) -> Option<&T> {
    match place {
        Some((number, thing)) if *number == n => Some(thing),
        _ => None,
    }
}

// The thing of a call, where it stands there.
fn taken<T>(place: &mut Option<(u64, T)>, n: u64) -> Option<T> {
    if !is_of(place, n) {
        return None;
    }
    match place.take() {
        Some((_, thing)) => Some(thing),
        None => None,
    }
}

// Puts a thing where none stands, or hands it back.
fn put<T>(place: &mut Option<(u64, T)>, n: u64, thing: T) -> Result<(), T> {
    if place.is_some() {
        return Err(thing);
    }
    match place.replace((n, thing)) {
        None => Ok(()),
        Some((_, other)) => Err(other),
    }
}

fn without_number<T>(place: Option<(u64, T)>) -> Option<T> {
    match place {
        Some((_, thing)) => Some(thing),
        None => None,
    }
}

impl<T> Places<T> {
    pub fn none() -> Places<T> {
        Places {
            first: None,
            second: None,
            third: None,
        }
    }

    /// The thing of a call.
    pub fn get(&self, n: u64) -> Option<&T> {
        if is_of(&self.first, n) {
            seen(&self.first, n)
        } else if is_of(&self.second, n) {
            seen(&self.second, n)
        } else {
            seen(&self.third, n)
        }
    }

    /// Keeps the thing of a call, or hands it back where there are three.
    pub fn keep(&mut self, n: u64, thing: T) -> Result<(), T> {
        match put(&mut self.first, n, thing) {
            Ok(()) => Ok(()),
            Err(thing) => self.keep_behind(n, thing),
        }
    }

    fn keep_behind(&mut self, n: u64, thing: T) -> Result<(), T> {
        match put(&mut self.second, n, thing) {
            Ok(()) => Ok(()),
            Err(thing) => put(&mut self.third, n, thing),
        }
    }

    /// Takes the thing of a call.
    pub fn take(&mut self, n: u64) -> Option<T> {
        match taken(&mut self.first, n) {
            Some(thing) => Some(thing),
            None => self.take_behind(n),
        }
    }

    fn take_behind(&mut self, n: u64) -> Option<T> {
        match taken(&mut self.second, n) {
            Some(thing) => Some(thing),
            None => taken(&mut self.third, n),
        }
    }

    /// All of them.
    pub fn into_all(self) -> (Option<T>, Option<T>, Option<T>) {
        let Places {
            first,
            second,
            third,
        } = self;
        (
            without_number(first),
            without_number(second),
            without_number(third),
        )
    }
}
