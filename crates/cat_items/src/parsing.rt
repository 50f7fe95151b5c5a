//! Bytes as JSON, under the catalogue's refusals.
ghost use Rattle.std.specs.Prelude.{◌≡◌, ◌≢◌, Some, None, Err, IfOk, IfErr, IfSome};
ghost use Rattle.serde_json.specs.View.{view};
ghost use Rattle.cat_base.specs.declared.refusal.Refusal.TheVariants.{Memory, Json};
ghost use Rattle.cat_items.specs.Reading.{json_of, text_fault};

use cat_base::Refusal;
use serde_json::Value;
use std::alloc::Global;
use std::str::from_utf8;

pub(crate) fn read_json(alloc: Global, bytes: &[u8]) -> Result<Value, Refusal>
    ensures ok { IfOk result (λ v. json_of bytes.now ≡ Some (view v)) }
    ensures err { IfErr result (λ e. e ≢ Memory → (e ≡ Json) × (json_of bytes.now ≡ None)) }
    ensures due { IfSome (text_fault bytes.now) (λ e. result ≡ Err e) }
{
    let Ok(text) = from_utf8(bytes) else {
        return Err(Refusal::Json);
    };
    match Value::from_str(alloc, text) {
        Ok(value) => Ok(value),
        Err(e) if e.is_memory() => Err(Refusal::Memory),
        Err(_) => Err(Refusal::Json),
    }
}
