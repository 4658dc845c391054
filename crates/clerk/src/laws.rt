// What is proved of the program's output as a whole.
ghost use Rattle.clerk.specs.Claims.{OneOutput};

// An input has one output: what `statement` ensures fixes every byte.
pub fn one_output_stands()
    ensures { OneOutput }
{}
