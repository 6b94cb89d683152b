// The verdict on a member file, and the laws of all verdicts.
ghost use Rattle.exactness.specs.Acceptance.{Exactly, OneFile, OneWriting, OnlyFiles, ReadsBack};
ghost use Rattle.exactness.specs.Example.{ExampleStands};
ghost use Rattle.exactness.specs.Refusal.{RefusedBy, RefusedExactly};
ghost use Rattle.memberfile.specs.Judge.{judge, summed};
ghost use Rattle.std.specs.Prelude.{◌≡◌};

use memberfile::check::{Summary, check};
use terms::fault::Fault;

// What the file in the bytes is, or its first fault.
pub fn judge_file(bytes: &[u8]) -> Result<Summary, Fault>
    ensures judged { result ≡ summed (judge bytes.now) }
    ensures accepted { Exactly bytes.now result }
    ensures refused { RefusedBy bytes.now result }
{
    check(bytes)
}

// The laws of all verdicts; it computes nothing.
pub fn files_are_exact()
    ensures back { ReadsBack }
    ensures only { OnlyFiles }
    ensures file { OneFile }
    ensures writing { OneWriting }
    ensures refused { RefusedExactly }
    ensures example { ExampleStands }
{}
