ghost use Rattle.std.specs.Prelude.{◌≡◌, ◌&&◌, length};
ghost use Rattle.model.specs.Lists.{any, distinct};
ghost use Rattle.model.specs.Tlv.{sign, response_tag};
ghost use Rattle.model.specs.Layouts.{reads};
ghost use Rattle.model.specs.Commands.{name_list};
ghost use Rattle.model.specs.Reader.{listed_keys, list_lengths};
ghost use Rattle.response_reader.specs.Responses.{Opened, KeysAre};

use layouts::after_pair;
use tlv::rows::all_distinct;

// "At most 8 records have one mixed token", so no list has more names.
const MOST_NAMES: usize = 8;

// Notes where the KeyIDs of the pairs stand that a stretch holds from a place on, and gives their number, if it holds at most eight and nothing else.
// A pair ends with its KeyID.
fn keys_from(s: &[u8], from: usize, places: &mut [usize; MOST_NAMES]) -> Option<usize>
    ensures { KeysAre s.now from places.new result }
{
    let mut place = from;
    for len in 0..MOST_NAMES {
        if place == s.len() {
            return Some(len);
        }
        let end = after_pair(s, place);
        if s.len() < end {
            return None;
        }
        places[len] = end - 32;
        place = end;
    }
    (place == s.len()).then_some(MOST_NAMES)
}

// Sign's list of names: two to eight, with different KeyIDs.
pub fn is_name_list(s: &[u8]) -> bool
    requires { Opened (response_tag sign) s.now }
    ensures { result ≡ (any (λ n. reads (name_list n) s.now) list_lengths && distinct (listed_keys s.now)) }
{
    let mut places = [0; MOST_NAMES];
    let Some(n) = keys_from(s, 10, &mut places) else {
        return false;
    };
    2 <= n && all_distinct(s, &places[..n], 0)
}
