// The demonstration: three members and a chain of withdrawals.

// The plan of the demonstration.
pub const PLAN: &str = "docket 20240305 morning soles 2 7 9
open 40
report 2 600.00
file transfers transfers-of-2
file transfers transfers-of-7
file transfers transfers-of-9
# Member 2 cannot pay its second transfer, nor member 7 its own; member 9 then lacks what both would have paid it.
clear sending statement
# With some cover at member 7 the chain ends sooner.
report 7 100.00
clear sending statement
# Member 7 sends the first transfer back.
file transfers returns-of-7
clear sending statement
";

const TRANSFERS_OF_2: &str = "file presentations soles morning 2 20240305 1
batch 1
present 220 7 1 500.00 0.00
present 221 9 2 300.00 0.00
# Member 5 is not on the roll.
present 220 5 3 10.00 0.00
";

const TRANSFERS_OF_7: &str = "file presentations soles morning 7 20240305 1
batch 1
present 220 9 1 600.00 0.00
";

const TRANSFERS_OF_9: &str = "file presentations soles morning 9 20240305 1
batch 1
present 220 2 1 100.00 0.00
";

const RETURNS_OF_7: &str = "file returns soles morning 7 20240305 1
batch 1
return 2 1 500.00 0.00 3
";

// The list of records that stands for a file of the demonstration.
pub fn list_of(name: &str) -> Option<&'static str> {
    match name {
        "transfers-of-2" => Some(TRANSFERS_OF_2),
        "transfers-of-7" => Some(TRANSFERS_OF_7),
        "transfers-of-9" => Some(TRANSFERS_OF_9),
        "returns-of-7" => Some(RETURNS_OF_7),
        _ => None,
    }
}
