//! Worked examples, which the prover computes.
ghost use Rattle.std.specs.Prelude.{◌≡◌, [], ◌∷◌, ◌++◌, codes};
ghost use Rattle.nc_model.specs.declared.kind.Kind.TheVariants.{Byte, Char, Int, Short};
ghost use Rattle.fm_model.specs.Example.{field_proto};
ghost use Rattle.dap_das.specs.Attributes.{offset_container};
ghost use Rattle.dap_das.specs.AttributeText.{attribute_text, container_text, global_container};

/// Attributes of numbers: bytes have no sign, and names are escaped. One without values is left out.
pub fn lines_of_numbers()
    ensures bytes { attribute_text (record { name = codes "valid range"; kind = Byte; values = 0 ∷ 127 ∷ 255 ∷ [] })
        ≡ codes "        Byte valid%20range 0, 127, 255;\n" }
    ensures shorts { attribute_text (record { name = codes "s"; kind = Short; values = 255 ∷ 254 ∷ 127 ∷ 255 ∷ [] })
        ≡ codes "        Int16 s -2, 32767;\n" }
    ensures none { attribute_text (record { name = codes "none"; kind = Int; values = [] }) ≡ [] }
{}

/// Attributes of characters: one text without the zeros at its end, which an empty one is too.
pub fn lines_of_characters()
    ensures text { attribute_text (record { name = codes "t"; kind = Char; values = 97 ∷ 34 ∷ 0 ∷ 233 ∷ 0 ∷ 0 ∷ [] })
        ≡ codes "        String t \"a\\\"\\000\\351\";\n" }
    ensures empty { attribute_text (record { name = codes "t"; kind = Char; values = 0 ∷ [] })
        ≡ codes "        String t \"\";\n" }
{}

/// The attributes of the offset of each row, and those of a prototype without any.
pub fn containers()
    ensures offset { container_text (offset_container field_proto) ≡ codes "    time_offset {\n"
        ++ codes "        String units \"seconds\";\n"
        ++ codes "        String standard_name \"forecast_period\";\n"
        ++ codes "    }\n" }
    ensures global { container_text (global_container field_proto) ≡ codes "    NC_GLOBAL {\n    }\n" }
{}
