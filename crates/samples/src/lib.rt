// Nine sample forms, whose texts are proved letter by letter.
#![tactic(auto)]

ghost use Rattle.std.specs.Prelude.{◌≡◌};
ghost use Rattle.samples.specs.Samples.{SampleTexts};

/// How many samples there are. Each of them passes the checks and has the opcode string and the signature that stand beside
/// it in the definition.
pub fn sample_texts() -> u32
    ensures count { result ≡ 9 }
    ensures texts { SampleTexts }
{
    9
}
