//! The law that what is written for an input is one. The call does nothing; its contract is the law.
ghost use Rattle.std.specs.Prelude.{ℕ};
ghost use Rattle.pm_gen.specs.declared.asking.Asked.{Asked};
ghost use Rattle.pm_call.specs.declared.words.Command.TheVariants.{Check, Replay, Gen, Late, At, Rooms};
ghost use Rattle.pm_call.specs.OneOutput.{HasOneReport, HasOneCount, HasOneOutput};

/// Two sessions of one input have one report, byte for byte, and one line of counts. So what `check` writes for an input is one
/// text, and what `replay` writes is one, each with one status. What `gen` writes for its three numbers is one text with one
/// status too, and so is what `late` writes, and `at` for its number, and what `rooms` writes.
pub fn output_is_one(input: &[u8])
    ensures one_report { HasOneReport input.now }
    ensures one_count { HasOneCount input.now }
    ensures check { HasOneOutput Check input.now }
    ensures replay { HasOneOutput Replay input.now }
    ensures made { (asked : Asked) → HasOneOutput (Gen asked) input.now }
    ensures late { HasOneOutput Late input.now }
    ensures version { (n : ℕ) → HasOneOutput (At n) input.now }
    ensures rooms { HasOneOutput Rooms input.now }
{
    let _ = input;
}
