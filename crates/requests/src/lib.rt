// The requests of a job.
#![tactic(auto)]

ghost use Rattle.std.specs.Prelude.{◌≡◌, cond, ◌+◌, ◌<◌, get_or, take, drop};
ghost use Rattle.std.proofs.Math.Option.{none};
ghost use Rattle.xliff.specs.Bytes.{two_at, enough};
ghost use Rattle.xliff.specs.Calls.{SP, JN, ST, RT, RW};
ghost use Rattle.xliff.specs.Desk.{lent, asked, request};
ghost use Rattle.requests.specs.Requests.{request_size, Asks};

// The bytes of a request by its mark. Set target has no size of its own: it ends with its content, which begins at
// CONTENT_AT.
const SPLIT_SIZE: usize = 10;

const JOIN_SIZE: usize = 4;

pub const CONTENT_AT: usize = 7;

const REMOVE_SIZE: usize = 4;

const REWRITE_SIZE: usize = 6;

// The numbers and letters of a request. Set target has the length of its content.
// It holds no slice of the content, which stays in the job: `request_size r ≤ length s` is asked beside it.
#[derive(Clone, Copy)]
pub enum Request {
    Split {
        part: u16,
        source_cut: u16,
        target_cut: u16,
        id: u16,
    },
    Join {
        part: u16,
    },
    SetTarget {
        part: u16,
        state: u8,
        length: u16,
    },
    RemoveTarget {
        part: u16,
    },
    Rewrite {
        side: u8,
        id: u16,
        form: u8,
    },
}

impl Request {
    // The number of bytes.
    pub fn size(self) -> usize
        ensures { result ≡ request_size self }
    {
        match self {
            Request::Split { .. } => SPLIT_SIZE,
            Request::Join { .. } => JOIN_SIZE,
            Request::SetTarget { length, .. } => CONTENT_AT + usize::from(length),
            Request::RemoveTarget { .. } => REMOVE_SIZE,
            Request::Rewrite { .. } => REWRITE_SIZE,
        }
    }
}

// SP part, cut, cut, id
fn split_of(s: &[u8]) -> Option<Request>
    ensures { Asks s.now result (asked s.now 10
        (SP (two_at s.now 2) (two_at s.now 4) (two_at s.now 6) (two_at s.now 8) lent)) }
{
    if s.len() < SPLIT_SIZE {
        return None;
    }
    Some(Request::Split {
        part: marks::number_at(s, 2),
        source_cut: marks::number_at(s, 4),
        target_cut: marks::number_at(s, 6),
        id: marks::number_at(s, 8),
    })
}

// JN part
fn join_of(s: &[u8]) -> Option<Request>
    ensures { Asks s.now result (asked s.now 4 (JN (two_at s.now 2) lent)) }
{
    if s.len() < JOIN_SIZE {
        return None;
    }
    Some(Request::Join {
        part: marks::number_at(s, 2),
    })
}

// ST part, state, length, content
fn set_of(s: &[u8]) -> Option<Request>
    ensures { Asks s.now result (cond (enough 7 s.now)
        (asked s.now (7 + two_at s.now 5) (ST (two_at s.now 2) (get_or s.now 4 0)
        (take (two_at s.now 5) (drop 7 s.now)) lent)) none) }
{
    if s.len() < CONTENT_AT {
        return None;
    }
    let length = marks::number_at(s, 5);
    if s.len() < CONTENT_AT + usize::from(length) {
        return None;
    }
    Some(Request::SetTarget {
        part: marks::number_at(s, 2),
        state: s[4],
        length,
    })
}

// RT part
// Like join_of but for the variant: one function for both would take the variant and be no plainer.
fn remove_of(s: &[u8]) -> Option<Request>
    ensures { Asks s.now result (asked s.now 4 (RT (two_at s.now 2) lent)) }
{
    if s.len() < REMOVE_SIZE {
        return None;
    }
    Some(Request::RemoveTarget {
        part: marks::number_at(s, 2),
    })
}

// RW side, id, form
fn rewrite_of(s: &[u8]) -> Option<Request>
    ensures { Asks s.now result (asked s.now 6
        (RW (get_or s.now 2 0) (two_at s.now 3) (get_or s.now 5 0) lent)) }
{
    if s.len() < REWRITE_SIZE {
        return None;
    }
    Some(Request::Rewrite {
        side: s[2],
        id: marks::number_at(s, 3),
        form: s[5],
    })
}

// The request at the head of `s`.
pub fn request_of(s: &[u8]) -> Option<Request>
    ensures { Asks s.now result (request s.now) }
{
    if s.len() < 2 {
        return None;
    }
    if marks::marked_by(s, b"SP") {
        return split_of(s);
    }
    if marks::marked_by(s, b"JN") {
        return join_of(s);
    }
    if marks::marked_by(s, b"ST") {
        return set_of(s);
    }
    if marks::marked_by(s, b"RT") {
        return remove_of(s);
    }
    if marks::marked_by(s, b"RW") {
        return rewrite_of(s);
    }
    None
}
