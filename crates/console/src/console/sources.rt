// The commands for the docket and the cover sources.
use crate::answer::Answer;
use crate::console::Console;
use crate::misread::Misread;
use crate::words::{number, numbers};
use rules::sources::pledges::Pledges;
use rules::sources::statement::Statement;
use std::alloc::Global;
use terms::refusal::Refusal;

impl Console {
    // Fills the docket anew; the session keeps the one it was opened with.
    pub fn set_docket(
        &mut self,
        date: u32,
        cycle: u8,
        currency: u8,
        roll: &[u16],
    ) -> Result<(), Refusal> {
        self.docket.fill(date, cycle, currency, roll)
    }

    // Reports a balance to the statement.
    pub fn set_balance(&mut self, code: u16, balance: u64) -> Result<(), Refusal> {
        self.statement.report(code, balance)
    }

    // Reports a balance and a pledge to the pledges.
    pub fn set_pledge(
        &mut self,
        code: u16,
        balance: u64,
        pledge: u64,
        percent: u8,
    ) -> Result<(), Refusal> {
        self.pledges.report(code, balance, pledge, percent)
    }

    pub(crate) fn fill_docket(&mut self, heap: Global, words: &[&str]) -> Result<Answer, Misread> {
        let [date, cycle, currency, codes @ ..] = words else {
            return Err(Misread::Usage("docket DATE CYCLE CURRENCY CODE..."));
        };
        let date = number(date)?;
        let cycle = number(cycle)?;
        let currency = number(currency)?;
        let roll = numbers(heap, codes)?;
        Ok(self.set_docket(date, cycle, currency, &roll).into())
    }

    pub(crate) fn empty_statement(&mut self, words: &[&str]) -> Result<Answer, Misread> {
        if !words.is_empty() {
            return Err(Misread::Usage("statement"));
        }
        self.statement = Statement::new();
        Ok(Answer::Done)
    }

    pub(crate) fn empty_pledges(&mut self, words: &[&str]) -> Result<Answer, Misread> {
        if !words.is_empty() {
            return Err(Misread::Usage("pledges"));
        }
        self.pledges = Pledges::new();
        Ok(Answer::Done)
    }

    pub(crate) fn report(&mut self, words: &[&str]) -> Result<Answer, Misread> {
        let [code, balance] = words else {
            return Err(Misread::Usage("report CODE BALANCE"));
        };
        Ok(self.set_balance(number(code)?, number(balance)?).into())
    }

    pub(crate) fn pledge(&mut self, words: &[&str]) -> Result<Answer, Misread> {
        let [code, balance, pledge, percent] = words else {
            return Err(Misread::Usage("pledge CODE BALANCE PLEDGE PERCENT"));
        };
        let code = number(code)?;
        let balance = number(balance)?;
        let pledge = number(pledge)?;
        let percent = number(percent)?;
        Ok(self.set_pledge(code, balance, pledge, percent).into())
    }
}
