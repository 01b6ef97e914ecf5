// Tokens: a first parameter `token:SECRET`.
ghost use Rattle.std.specs.Prelude.{◌≡◌, bytes_eq, length, map, option_map};
ghost use Rattle.serde_json.specs.View.{view};
ghost use Rattle.rpc_envelope.specs.Outcomes.{seen_if_any};
ghost use Rattle.rpc_console.specs.Tokens as spec;

use serde_json::Value;

// Compares all bytes, however many of the first ones are right.
fn same_bytes(a: &[u8], b: &[u8]) -> bool
    requires { length a.now ≡ length b.now }
    ensures { result ≡ bytes_eq a.now b.now }
{
    let mut same = true;
    for i in 0..a.len() {
        same &= a[i] == b[i];
    }
    same
}

fn is_secret(text: &[u8], secret: &[u8]) -> bool
    ensures { result ≡ bytes_eq text.now secret.now }
{
    text.len() == secret.len() && same_bytes(text, secret)
}

fn tells_secret(text: &[u8], secret: &[u8]) -> bool
    ensures { result ≡ spec.tells_secret secret.now text.now }
{
    text.starts_with(b"token:") && is_secret(&text[6..], secret)
}

fn has_token(secret: &str, params: &[Value]) -> bool
    ensures { result ≡ spec.has_token secret.now (map view params.now) }
{
    match params {
        [first, ..] => match first.as_str() {
            Some(text) => tells_secret(text.as_bytes(), secret.as_bytes()),
            None => false,
        },
        [] => false,
    }
}

/// Whether the parameters tell the secret, where one is set. All bytes of a secret of the right length are compared,
/// however many of the first ones are right. How long that takes on a machine is not promised.
pub fn is_authorized(secret: Option<&str>, params: Option<&[Value]>) -> bool
    ensures { result
        ≡ spec.is_authorized (option_map (λ s. s.now) secret.entry) (seen_if_any params.entry) }
{
    match secret {
        None => true,
        Some(secret) => match params {
            Some(params) => has_token(secret, params),
            None => false,
        },
    }
}
