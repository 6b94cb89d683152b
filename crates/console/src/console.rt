// What the console holds between two lines: a docket, a session, a source of each kind, and a file of the writer.
use crate::answer::Answer;
use crate::draft::Draft;
use crate::misread::Misread;
use crate::words::words_of;
use rules::sources::pledges::Pledges;
use rules::sources::statement::Statement;
use session::session::Session;
use std::alloc::Global;
use terms::docket::Docket;

mod calls;
mod sources;
pub mod writing;

#[derive(Drop)]
pub struct Console {
    docket: Docket,
    session: Session,
    statement: Statement,
    pledges: Pledges,
    draft: Option<Draft>,
}

// Whether a line is no command: blank, or a comment.
pub fn is_silent(line: &str) -> bool {
    let text = line.trim();
    text.is_empty() || text.starts_with('#')
}

impl Console {
    // The console at its start: the built-in docket, a session of it without places, and sources that know of no member.
    pub fn new(heap: Global) -> Console {
        Console {
            docket: Docket::built_in(),
            session: Session::open(Docket::built_in(), Vec::new(heap)),
            statement: Statement::new(),
            pledges: Pledges::new(),
            draft: None,
        }
    }

    // The answer to a line; a blank line and a comment have none.
    pub fn answer(&mut self, rt: &HostRuntime, line: &str) -> Option<Result<Answer, Misread>> {
        if is_silent(line) {
            return None;
        }
        Some(self.obey(rt, line))
    }

    fn obey(&mut self, rt: &HostRuntime, line: &str) -> Result<Answer, Misread> {
        let words = words_of(rt.alloc(), line)?;
        let [command, rest @ ..] = words.as_slice() else {
            return Err(Misread::Command);
        };
        match *command {
            "docket" => self.fill_docket(rt.alloc(), rest),
            "statement" => self.empty_statement(rest),
            "pledges" => self.empty_pledges(rest),
            "report" => self.report(rest),
            "pledge" => self.pledge(rest),
            "open" => self.open_session(rt.alloc(), rest),
            "intake" => self.intake(rt, rest),
            "clear" => self.clear(rest),
            "position" => self.position(rest),
            "bilateral" => self.bilateral(rest),
            "cover" => self.cover(rest),
            "mark" => self.mark(rest),
            "result" => self.result(rt.alloc(), rest),
            "wopen" => self.open_file(rt.alloc(), rest),
            "wbatch" => self.open_batch(rt.alloc(), rest),
            "wput6" => self.put_presentation(rt.alloc(), rest),
            "wput7" => self.put_return(rt.alloc(), rest),
            "wclose" => self.close_batch(rest),
            "wfinish" => self.finish_file(rt.alloc(), rest),
            _ => Err(Misread::Command),
        }
    }
}
