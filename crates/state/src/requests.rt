// What a request asks for.
ghost use Rattle.std.specs.Prelude.{◌≡◌};
ghost use Rattle.state.specs.State.{mode_of_request, object_of_request};

// The mode of a request.
pub fn mode_of_request(request: u16) -> u8
    ensures { result ≡ mode_of_request request }
{
    (request / 256) as u8
}

// The object of a request.
pub fn object_of_request(request: u16) -> u8
    ensures { result ≡ object_of_request request }
{
    (request % 256) as u8
}
