// Worked values of each rule, at its limits.
use crate::cover::CoverSource;
use crate::instrument::{Denial, Instrument};
use crate::instruments::debits::ChargedDebits;
use crate::instruments::transfers::CreditTransfers;
use crate::ranking::{Key, Ranking};
use crate::rankings::{SendingOrder, WagesFirst};
use crate::sources::pledges::Pledges;
use crate::sources::statement::Statement;
use terms::currency::Currency;
use terms::refusal::Refusal;

#[test]
fn instruments_keep_their_limits(rt: HostRuntime) {
    let transfers = CreditTransfers;
    assert_eq!(rt;
        transfers.admit(225, Currency::Soles, 30_000_000, 10_000),
        Ok(30_010_000)
    );
    assert_eq!(rt;
        transfers.admit(225, Currency::Dollars, 10_000_001, 0),
        Err(Denial::Limits)
    );
    assert_eq!(rt; transfers.admit(223, Currency::Dollars, 0, 0), Ok(0));
    assert_eq!(rt;
        transfers.admit(224, Currency::Dollars, 0, 0),
        Err(Denial::Limits)
    );
    assert_eq!(rt;
        transfers.admit(219, Currency::Soles, 0, 0),
        Err(Denial::RecordType)
    );
    let debits = ChargedDebits;
    assert_eq!(rt; debits.admit(100, Currency::Soles, 1_000, 30), Ok(970));
    assert_eq!(rt;
        debits.admit(100, Currency::Dollars, 2_000_001, 0),
        Err(Denial::Limits)
    );
    assert_eq!(rt;
        debits.admit(100, Currency::Soles, 29, 30),
        Err(Denial::Limits)
    );
    assert_eq!(rt;
        debits.admit(220, Currency::Soles, 1, 0),
        Err(Denial::RecordType)
    );
}

fn key(record_type: u8, number: usize) -> Key {
    Key {
        record_type,
        worth: 1,
        number,
    }
}

#[test]
fn wages_stand_first(rt: HostRuntime) {
    assert!(rt; SendingOrder.before(key(220, 1), key(223, 2)));
    assert!(rt; !SendingOrder.before(key(220, 2), key(220, 2)));
    assert!(rt; WagesFirst.before(key(223, 2), key(220, 1)));
    assert!(rt; !WagesFirst.before(key(220, 1), key(221, 2)));
    assert!(rt; WagesFirst.before(key(221, 1), key(223, 2)));
    assert!(rt; WagesFirst.before(key(100, 1), key(220, 2)));
}

#[test]
fn sources_hold_what_was_last_reported(rt: HostRuntime) {
    let mut statement = Statement::new();
    for code in 1..=64u16 {
        assert_eq!(rt; statement.report(code, 600), Ok(()));
    }
    assert_eq!(rt; statement.report(65, 600), Err(Refusal::TooManyReports));
    assert_eq!(rt; statement.report(2, 500), Ok(()));
    assert_eq!(rt;
        statement.report(2, 1_000_000_000_000_001),
        Err(Refusal::ReportLimits)
    );
    assert_eq!(rt; statement.cover(2), 500);
    assert_eq!(rt; statement.cover(64), 600);
    assert_eq!(rt; statement.cover(65), 0);
    let mut pledges = Pledges::new();
    assert_eq!(rt; pledges.report(7, 100, 199, 50), Ok(()));
    assert_eq!(rt; pledges.report(999, 0, 0, 101), Err(Refusal::ReportLimits));
    assert_eq!(rt; pledges.cover(7), 199);
}
