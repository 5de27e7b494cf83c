//! The accesses to one cell, in the order of the trace.
ghost use Rattle.std.specs.Prelude.{◌≡◌, drop};
ghost use Rattle.wg_check.specs.Stories.{next_writer, after, at_end, later, writer_for, is_step, writer_met};

/// An access to the cell: the number of its step, what it does, and how many barriers stand before it.
#[derive(Clone, Copy)]
pub struct Access {
    pub place: u64,
    pub reads: bool,
    pub writes: bool,
    pub epoch: u64,
}

/// The last writer so far, the first writer behind the same barriers, and how many barriers these are.
#[derive(Clone, Copy)]
pub struct Past {
    pub last: u64,
    pub first: u64,
    pub epoch: u64,
}

/// The first access from a place of the list on that writes.
fn next_writer(story: &[Access], from: usize) -> Option<Access>
    ensures { result ≡ next_writer (drop from story.now) }
{
    let mut at = from;
    while at < story.len() {
        if story[at].writes {
            return Some(story[at]);
        }
        at += 1;
    }
    None
}

fn after(past: Option<Past>, access: Access) -> Option<Past>
    ensures { result ≡ after past access }
{
    if !access.writes {
        return past;
    }
    let first = match past {
        Some(p) if p.epoch == access.epoch => p.first,
        _ => access.place,
    };
    Some(Past {
        last: access.place,
        first,
        epoch: access.epoch,
    })
}

fn at_end(past: Option<Past>) -> Option<u64>
    ensures { result ≡ at_end past }
{
    match past {
        Some(p) => {
            if p.first == p.last {
                None
            } else {
                Some(p.first)
            }
        }
        None => None,
    }
}

fn later(access: Access, next: Option<Access>) -> Option<u64>
    ensures { result ≡ later access next }
{
    match next {
        Some(w) => {
            if w.epoch == access.epoch {
                Some(w.place)
            } else {
                None
            }
        }
        None => None,
    }
}

fn writer_for(past: Option<Past>, access: Access, next: Option<Access>) -> Option<u64>
    ensures { result ≡ writer_for past access next }
{
    match past {
        Some(p) => {
            if p.first != p.last {
                return Some(p.first);
            }
            if p.epoch == access.epoch {
                return Some(p.last);
            }
            later(access, next)
        }
        None => later(access, next),
    }
}

fn is_step(reader: Option<u64>, place: u64) -> bool
    ensures { result ≡ is_step reader place }
{
    match reader {
        Some(step) => step == place,
        None => false,
    }
}

/// The least writer that may come between a reader, the end as `None`, and what it sees.
pub fn writer_met(story: &[Access], reader: Option<u64>) -> Option<u64>
    ensures { result ≡ writer_met None reader story.now }
{
    let mut past = None;
    for (i, access) in story.iter().enumerate() {
        if is_step(reader, access.place) {
            return writer_for(past, *access, next_writer(story, i + 1));
        }
        past = after(past, *access);
    }
    at_end(past)
}
