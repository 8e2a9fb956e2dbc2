//! The examples of FIPS 197.
#![tactic(auto, unfolding(aes_block::specs::Field::times_x, aes_block::specs::Field::product_of_terms, aes_block::specs::Field::product, aes_block::specs::Field::inverse, aes_block::specs::Field::affine, aes_block::specs::Field::sub_byte,))]

ghost use Rattle.std.specs.Prelude.{◌≡◌};
ghost use Rattle.aes_block.specs.Field.{product, inverse, sub_byte};
ghost use Rattle.aes_block.specs.Cipher.{aes128_of};
ghost use Rattle.evidence.specs.Vectors.{example_key, example_plain, example_cipher};

/// Products and SubBytes of FIPS 197's examples.
pub fn field_examples()
    ensures product { product 0x57 0x83 ≡ 0xc1 }
    ensures inverse { inverse 0x53 ≡ 0xca }
    ensures sub { sub_byte 0x53 ≡ 0xed }
    ensures sub_zero { sub_byte 0 ≡ 0x63 }
{}

/// The example vector of FIPS 197, appendix C.1.
pub fn aes_vector()
    ensures { aes128_of example_key example_plain ≡ example_cipher }
{}
