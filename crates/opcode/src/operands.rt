// What the opcode string asks of a form's operands.
use crate::formatter::OpCodeFormatter;
use kinds::{Role, Width};

impl OpCodeFormatter<'_> {
    ghost use Rattle.std.specs.Prelude.{◌≡◌, Bool};
    ghost use Rattle.kinds.specs.declared.table.Role.{Role};
    ghost use Rattle.opcode.specs.Operands.{has, first_register};

    // Whether the role of one of the operands passes the test, which computes some predicate p.
    pub(crate) fn has<F: Fn(Role) -> bool>(&self, test: F) -> bool
        requires { F.IsAlwaysCallable test }
        ensures { (p : Role → Bool) → ((r : Role) (b : Bool) → F.post test r b → b ≡ p r) → result ≡ has p self.now.operands.now }
    {
        self.operands.iter().any(|kind| test(kind.role()))
    }

    // The width of the first operand that is a register in the low bits of the opcode.
    pub fn get_op_code_bits_operand(&self) -> Option<Width>
        ensures { result ≡ first_register self.now.operands.now }
    {
        self.operands
            .iter()
            .find_map(|kind| kind.role().opcode_register())
    }
}
