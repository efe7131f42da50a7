//! Statuses as numbers.

ghost use Rattle.std.specs.Prelude.{◌≡◌, ◌≢◌};
ghost use Rattle.tsd_words.specs.StatusText.{status_code};

use tsd_words::Status;

/// The number of a status, as the program ends with it.
pub(crate) fn number_of(status: Status) -> u8
    ensures value { result ≡ status_code status }
    ensures open { result ≢ 20 }
    ensures fault { status ≡ Status.DeviceFault → result ≡ 4 }
    ensures done { result ≡ 0 → status ≡ Status.Done }
{
    match status {
        Status::Done => 0,
        Status::Usage => 2,
        Status::NotImage(_) => 3,
        Status::DeviceFault => 4,
        Status::SourceFault => 5,
        Status::PutFault => 6,
        Status::TooLong => 7,
        Status::NoMemory => 8,
        Status::Truncated => 9,
        Status::RootDenied(_) => 10,
    }
}
