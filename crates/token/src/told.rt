ghost use Rattle.std.specs.Prelude.{◌≡◌};
ghost use Rattle.token.specs.Written.{code_of, length_after};

use fields::refusals::Refusal;

// What the firmware is told of a function with one output: the refusal number; or 0, and the length of what was written, which goes into len.
pub fn tell(done: Result<usize, Refusal>, len: &mut usize) -> u32
    ensures { (result ≡ code_of done) × (len.new ≡ length_after done len.old) }
{
    match done {
        Ok(n) => {
            *len = n;
            0
        }
        Err(refusal) => u32::from(refusal),
    }
}
