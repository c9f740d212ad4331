//! Methods.

ghost use Rattle.std.specs.Prelude.{◌≡◌, ◌≢◌, length, true};
ghost use Rattle.edd_instructions.specs.Validity.{IsValid};
ghost use Rattle.edd_embed.specs.declared.playing.PlayRefusal.{PlayRefusal};
ghost use Rattle.edd_embed.specs.Images.{AreOf};
ghost use Rattle.edd_embed.specs.Playing.{IsPlayRefusal, Shows, answers_of, have_settings};
ghost use Rattle.edd_embed.specs.Statuses.{refusal_status};

use edd_embed::statuses::{DONE, OTHER_IMAGE, refusal_status};
use edd_embed::{Given, ImageNumbers, PlainEnding, PlainRequest, Setting, play_into};
use edd_syntax::numbers::MethNo;
use std::alloc::Global;

/// Plays a method from its start under answers.
#[unsafe(no_mangle)]
pub extern "C" fn edd_play(
    alloc: Global,
    bytes: &[u8],
    image: &ImageNumbers,
    method: u16,
    values: &[i64],
    answers: &[Given],
    settings: &[Setting],
    steps: u64,
    requests: &mut [PlainRequest],
    after: &mut [i64],
    ending: &mut PlainEnding,
) -> u32
    requires { AreOf image.now bytes.now → IsValid bytes.now }
    ensures sound { result ≡ 0 → Shows bytes.now (record { 0 = method }) values.now steps
        (answers_of answers.now settings.now) ending.new requests.old requests.new after.new }
    ensures enough { result ≡ 0 → have_settings answers.now settings.now ≡ true }
    ensures refused { result ≢ 0 → result ≢ 260 → (why : PlayRefusal)
        × (result ≡ refusal_status why) × IsPlayRefusal bytes.now (record { 0 = method }) values.now
        steps answers.now settings.now (length after.old) why }
    ensures accepted { result ≢ 260 → AreOf image.now bytes.now }
    ensures other { result ≡ 260 → ¬ AreOf image.now bytes.now }
    ensures ending_kept { result ≢ 0 → ending.new ≡ ending.old }
    ensures requests_kept { result ≢ 0 → requests.new ≡ requests.old }
    ensures after_kept { result ≢ 0 → after.new ≡ after.old }
{
    let Some(image) = image.image(bytes) else {
        return OTHER_IMAGE;
    };
    let method = MethNo(method);
    match play_into(
        alloc, &image, method, values, answers, settings, steps, requests, after,
    ) {
        Ok(shown) => {
            *ending = shown;
            DONE
        }
        Err(why) => refusal_status(why),
    }
}
