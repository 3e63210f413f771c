// Names in fields of 16 bytes, in which a name is filled up with zero bytes.
#![tactic(auto)]

ghost use Rattle.std.specs.Prelude.{◌≡◌, ◌==◌, length};
ghost use Rattle.std.specs.List.{list_all};
ghost use Rattle.meaning.specs.Limits.{most_name};
ghost use Rattle.meaning.specs.Names.{filled, Sooner};
ghost use Rattle.meaning.specs.Answers.{Decides};
ghost use Rattle.filled.specs.Fields.{HasName};

// Whether all bytes are zero.
fn all_zero(bytes: &[u8]) -> bool
    ensures { result ≡ list_all (λ byte. byte == 0) bytes.now }
{
    bytes.iter().all(|byte| *byte == 0)
}

// Whether a name stands in the field, filled up with zero bytes.
#[tactic(auto, using(name::proofs::RunLaws::run_within))]
pub fn has_name(field: &[u8]) -> bool
    requires { length field.now ≡ most_name }
    ensures { Decides (HasName field.now) result }
{
    let n = name::name_run(field);
    n != 0 && all_zero(&field[n..])
}

// Whether the name in field x comes before that in field y.
pub fn comes_before(x: &[u8], y: &[u8]) -> bool
    requires x_long { length x.now ≡ most_name }
    requires y_long { length y.now ≡ most_name }
    ensures { Decides (Sooner x.now y.now) result }
{
    x < y
}

// Whether `name`, filled up with zero bytes, stands in the field. It may be any bytes, and more than 16 of them.
pub fn is_filled(field: &[u8], name: &[u8]) -> bool
    requires { length field.now ≡ most_name }
    ensures { Decides (field.now ≡ filled name.now) result }
{
    // A longer name has other bytes behind these: `call` is not `callback`.
    field.starts_with(name) && all_zero(&field[name.len()..])
}
