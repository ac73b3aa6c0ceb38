// Moves by their codes, as the search reads them: by itself, and not by the product's `Code`, since it is there to check the product.
ghost use Rattle.std.specs.Prelude.{◌≡◌, ◌/◌, ◌%◌};

// The shuttle of a move.
pub(crate) fn shuttle_of(m: u16) -> u16
    ensures { result ≡ m / 4096 }
{
    m / 4096
}

// The place of a move on its shuttle.
pub(crate) fn place_of(m: u16) -> u16
    ensures { result ≡ m % 4096 }
{
    m % 4096
}
