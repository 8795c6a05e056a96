//! The methods that a resource takes.
ghost use Rattle.std.specs.Prelude.{◌≡◌};
ghost use Rattle.review_http_requests.specs.Routes.{methods_text, takes};

/// The methods that a resource takes.
#[derive(Clone, Copy, PartialEq, Eq)]
pub enum Methods {
    Get,
    GetAndPost,
    GetAndPut,
    Post,
    Put,
}

impl Methods {
    /// Their names in the order of bytes, with `, ` between them.
    pub fn text(self) -> &'static str
        ensures { result.now ≡ methods_text self }
    {
        match self {
            Methods::Get => "GET",
            Methods::GetAndPost => "GET, POST",
            Methods::GetAndPut => "GET, PUT",
            Methods::Post => "POST",
            Methods::Put => "PUT",
        }
    }

    /// Whether a method is one of them. Methods are told apart by case.
    pub fn takes(self, method: &[u8]) -> bool
        ensures { result ≡ takes self method.now }
    {
        match self {
            Methods::Get => method == b"GET".as_slice(),
            Methods::GetAndPost => method == b"GET".as_slice() || method == b"POST".as_slice(),
            Methods::GetAndPut => method == b"GET".as_slice() || method == b"PUT".as_slice(),
            Methods::Post => method == b"POST".as_slice(),
            Methods::Put => method == b"PUT".as_slice(),
        }
    }
}
