// How far a text has come, and what its next line does: decided over plain values.
ghost use Rattle.std.specs.Prelude.{◌≡◌, ◌<◌};
ghost use Rattle.reader.specs.Kinds.{says};
ghost use Rattle.text.specs.Sofar.{bare, refused_by, left_by, come_to, started, goes_of, failed, told, head_of, asked_of, asked_as, advanced_to, refused_of};

use crate::feed::line::Line;
use inplace::marks::Marks;
use request::Request;
use request::call::Call;
use tables::PLAN;
use writers::output::{BAD_LINE, Refused, SHORT};

// The five numbers of a refusal, as the state says them.
#[derive(Clone, Copy, Debug, PartialEq, Eq)]
pub struct Reason {
    pub number: u64,
    pub index: u64,
    pub namespace: u64,
    pub owner: u64,
    pub detail: u64,
}

impl Reason {
    // A number alone.
    fn bare(number: u64) -> Reason
        ensures { result ≡ bare number }
    {
        Reason {
            number,
            index: 0,
            namespace: 0,
            owner: 0,
            detail: 0,
        }
    }

    // Any five numbers, which are no refusal's where its own is 0.
    fn refused(self) -> Option<Reason>
        ensures { result ≡ refused_by self }
    {
        if self.number == 0 {
            return None;
        }
        Some(self)
    }

    // What a call has left in the state, if it was refused.
    fn left_by(m: Marks) -> Option<Reason>
        ensures { result ≡ left_by m }
    {
        let five = Reason {
            number: m.number,
            index: m.index,
            namespace: m.namespace,
            owner: m.owner,
            detail: m.detail,
        };
        five.refused()
    }
}

// Where the next line starts; the lines taken and the wants accepted; and why the last line was refused, if it was.
#[derive(Clone, Copy, Debug, PartialEq, Eq)]
pub struct Sofar {
    pub at: usize,
    pub lines: u64,
    pub wants: usize,
    pub refusal: Option<Reason>,
}

impl Sofar {
    // No line is taken yet.
    pub fn beginning() -> Sofar
        ensures { result ≡ started }
    {
        Sofar {
            at: 0,
            lines: 0,
            wants: 0,
            refusal: None,
        }
    }

    // As far as the numbers say, with any five behind them.
    pub fn of(at: usize, lines: u64, wants: usize, five: Reason) -> Sofar
        ensures { result ≡ come_to at lines wants five }
    {
        Sofar {
            at,
            lines,
            wants,
            refusal: five.refused(),
        }
    }

    // Whether one more line of a text of n bytes is taken: none was refused, and the text goes on.
    pub fn goes(&self, n: usize) -> bool
        ensures { result ≡ goes_of self.now n }
    {
        self.refusal.is_none() && self.at < n
    }

    // What a line does to the tables before a want is answered: a `pool` or a `hold` is made before the first want, and the first want starts.
    pub fn head_of(&self, call: Option<Call>) -> Option<Call>
        ensures { says result ≡ head_of self.now.wants (says call) }
    {
        match call {
            Some(Call::Pool(_, _) | Call::Hold(_, _)) if self.wants == 0 => call,
            Some(Call::Want(_)) if self.wants == 0 => Some(Call::Start),
            _ => None,
        }
    }

    // The request of a want that is answered.
    pub fn asked(&self, call: Option<Call>) -> Option<Request>
        ensures { asked_as result ≡ asked_of self.now.wants (says call) }
    {
        match call {
            Some(Call::Want(r)) if self.wants < PLAN => Some(r),
            _ => None,
        }
    }

    // A line that is refused by the rules of lines alone.
    fn failed(&self, next: usize, number: u64) -> Sofar
        requires { self.now.lines < next }
        ensures { result ≡ failed self.now next number }
    {
        Sofar {
            at: next,
            lines: self.lines + 1,
            wants: self.wants,
            refusal: Some(Reason::bare(number)),
        }
    }

    // A line that was answered by its call.
    fn told(&self, next: usize, wants: usize, m: Marks) -> Sofar
        requires { self.now.lines < next }
        ensures { result ≡ told self.now next wants m }
    {
        Sofar {
            at: next,
            lines: self.lines + 1,
            wants,
            refusal: Reason::left_by(m),
        }
    }

    // How far the text has come behind the line, by the five numbers that its call left in the state: 10 before any other number, and 11 for one want more than a plan has.
    pub fn advanced(&self, l: Line, m: Marks) -> Sofar
        requires { self.now.lines < l.next }
        ensures { result ≡ advanced_to self.now (says l.call) l.next m }
    {
        match l.call {
            Some(Call::Pool(_, _) | Call::Hold(_, _)) if self.wants == 0 => {
                self.told(l.next, self.wants, m)
            }
            Some(Call::Want(_)) if PLAN <= self.wants => self.failed(l.next, SHORT),
            Some(Call::Want(_)) if m.number == 0 => self.told(l.next, self.wants + 1, m),
            Some(Call::Want(_)) => self.told(l.next, self.wants, m),
            _ => self.failed(l.next, BAD_LINE),
        }
    }

    // The `no` line of a text that was refused.
    pub fn refused(&self) -> Option<Refused>
        ensures { result ≡ refused_of self.now }
    {
        let Some(r) = self.refusal else {
            return None;
        };
        Some(Refused {
            line: self.lines,
            number: r.number,
            namespace: r.namespace,
            owner: r.owner,
            detail: r.detail,
        })
    }
}
