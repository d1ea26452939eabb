//! Laws of what an input is. The call does nothing; its contract is the law.
ghost use Rattle.pm_script.specs.OneRooms.{RoomsExcludeRefusal, HasOneRoomsRefusal, HasOneRooms};
ghost use Rattle.pm_script.specs.OneMeaning.{SessionExcludesRefusal, HasOneRefusal, HasOneSession};

/// In each form of files an input is a session or is refused, and either is one: the refusal with its line and code, and the
/// session with its types, its first document, its clients and its op lines.
pub fn input_means_one(input: &[u8])
    ensures apart { SessionExcludesRefusal input.now }
    ensures one_refusal { HasOneRefusal input.now }
    ensures one_session { HasOneSession input.now }
{
    let _ = input;
}

/// As a file of many rooms an input is rooms or is refused, and either is one: the refusal with its line and code, and of each room
/// in order the name, the types, the first document, the clients and the op lines.
pub fn rooms_mean_one(input: &[u8])
    ensures apart { RoomsExcludeRefusal input.now }
    ensures one_refusal { HasOneRoomsRefusal input.now }
    ensures one_rooms { HasOneRooms input.now }
{
    let _ = input;
}
