// Rows that are a term by themselves.
ghost use Rattle.std.specs.Prelude.{◌≡◌};
ghost use Rattle.kinds.specs.Sets.{set_of};
ghost use Rattle.definition.specs.Grammar.{plain_terms};

use kinds::set;

// Their set, by whether entrypoint is one of them (request (xiv)).
pub fn literals(entrypoint: bool) -> usize
    ensures { set_of result ≡ plain_terms entrypoint }
{
    if entrypoint {
        return set::LITERAL;
    }
    set::LITERAL_LESS
}
