// The codes that each rulebook has. They come as bytes and not as enums: which bytes are codes is what is tested here,
// and `has_type`, `has_instruction` and `has_purpose` of specs/Codes promise an answer for every number.
ghost use Rattle.std.specs.Prelude.{◌≡◌};
ghost use Rattle.rules.specs.Codes.{has_type, has_instruction, has_purpose};

use crate::text::{Text, is_rulebook};

// Whether a rulebook has contracts of this type.
pub fn has_type(text: Text, contract_type: u8) -> bool
    ensures { result ≡ has_type text contract_type }
{
    ((text.rulebook == 1) & ((contract_type == 1) | (contract_type == 2)))
        | ((text.rulebook == 2) & (contract_type == 1))
}

// Whether a rulebook has this instruction.
pub fn has_instruction(text: Text, instruction: u8) -> bool
    ensures { result ≡ has_instruction text instruction }
{
    let only_first = (instruction == 3) | (instruction == 4);
    let known = (1 <= instruction) & (instruction <= 6);
    known & ((text.rulebook == 1) | ((text.rulebook == 2) & !only_first))
}

// Whether a rulebook has this purpose.
pub fn has_purpose(text: Text, purpose: u8) -> bool
    ensures { result ≡ has_purpose text purpose }
{
    ((1 <= purpose) & (purpose <= 4)) & is_rulebook(text.rulebook as u64)
}
