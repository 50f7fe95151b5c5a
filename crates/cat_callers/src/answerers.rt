//! The threads that answer a stream of lines: each has its share of the sessions.
use crate::front::Front;
use crate::output::{Output, Replies, Told};
use crate::queues::Taking;
use crate::session::Session;
use cat_base::Refusal;
use cat_directory::{Directory, Shelf};
use cat_threads::cat_protocol::lines::Line;
use cat_threads::cat_protocol::replies::Reply;
use cat_threads::cat_protocol::serving::{split_line, text_of};
use cat_threads::{Naming, Pass};
use std::io::Write;
use std::sync::{Mutex, Wait};

/// The line that the bytes spell. None where they can't be read, or show no session.
pub(crate) fn line_of(bytes: &[u8]) -> Option<Line<'_>> {
    let text = text_of(bytes)?;
    match Line::read(text) {
        Ok(line) => Some(line),
        Err(_) => None,
    }
}

impl<'a, D: Directory + Shelf, J: Naming, R: Wait> Front<'a, D, J, R> {
    /// The sessions of the passes, without rights; fewer where memory is wanting.
    pub(crate) fn seated(&self, passes: Vec<Pass<J>>) -> Vec<Session<J>> {
        let mut sessions = Vec::new(self.alloc);
        for pass in passes {
            if let Err(failed) = sessions.push(Session::new(self.alloc, pass)) {
                self.end(failed.value);
            }
        }
        sessions
    }

    /// Ends all of them.
    pub(crate) fn end_all(&self, sessions: Vec<Session<J>>) {
        let mut sessions = sessions;
        'sessions: while let Some(session) = sessions.pop() {
            self.end(session);
        }
        sessions.destroy_empty();
    }

    /// Answers a line of one of the sessions, which are each so many numbers apart.
    fn answer_line<S: Shelf, W: Write + Drop>(
        &self,
        sessions: &mut Vec<Session<J>>,
        apart: usize,
        shelf: &mut S,
        line: &[u8],
        replies: &mut Replies<'_, W>,
    ) {
        let Some(line) = line_of(line) else {
            return replies.add(self.rt, Told::Unreadable);
        };
        let place = (line.session as usize).checked_div(apart).unwrap_or(0);
        let answer = match sessions.get_mut(place) {
            Some(session) if session.number() == line.session => {
                self.answer(session, shelf, line.command)
            }
            _ => Err(Refusal::Memory),
        };
        let session = line.session;
        replies.add(self.rt, Told::Reply(&Reply { session, answer }));
    }

    /// Answers lines of the sessions, one behind another.
    pub(crate) fn answer_lines<S: Shelf, W: Write + Drop>(
        &self,
        sessions: &mut Vec<Session<J>>,
        apart: usize,
        shelf: &mut S,
        lines: &[u8],
        replies: &mut Replies<'_, W>,
    ) {
        let mut rest = lines;
        'lines: while let Some((line, more)) = split_line(rest) {
            self.answer_line(sessions, apart, shelf, line, replies);
            rest = more;
        }
    }
}

/// Answers the lines that come, until no more do. The sessions of the passes are so many numbers apart.
pub(crate) fn answer_stream<
    D: Directory + Shelf,
    J: Naming,
    S: Shelf + Drop,
    W: Write + Drop,
    R: Wait,
>(
    front: &Front<'_, D, J, R>,
    passes: Vec<Pass<J>>,
    apart: usize,
    shelf: S,
    taking: Taking,
    output: &Mutex<Output<W>>,
) {
    let rt = front.rt;
    let mut shelf = shelf;
    let mut sessions = front.seated(passes);
    let mut replies = Replies::new(front.alloc, output);
    for _ in rt.forever() {
        let Some(lines) = taking.next(rt) else {
            break;
        };
        front.answer_lines(
            &mut sessions,
            apart,
            &mut shelf,
            lines.as_slice(),
            &mut replies,
        );
        replies.let_go(rt);
        taking.give_back(rt, lines);
    }
    front.end_all(sessions);
}
