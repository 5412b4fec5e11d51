// The name text; tools/texts.py writes this file from docs/KINDS.md.
ghost use Rattle.std.specs.Prelude.{◌≡◌, get_or};
ghost use Rattle.kinds.specs.Answers.{starts};
ghost use Rattle.messages.specs.Pieces.{texts};

// Descriptions, joints and sentences, one after the other.
pub const TEXT: [u8; 816] =
    *b"white spacenewlinecommentunknown tokeninvalid UTF-8`all``and``any``ascii``at``base64``base64wide`\
      `condition``contains``defined``endswith``entrypoint``false``filesize``for``fullword``global`\
      `icontains``iendswith``iequals``import``in``include``istartswith``matches``meta``nocase``none``not`\
      `of``or``private``rule``startswith``strings``them``true``wide``xor``with``<<``>>``==``!=``<``>``<=`\
      `>=``&``*``\\``^``,``:``.``=``-``%``|``+``~``{``}``(``)``[``]`string literalregular expression\
      identifierpattern identifierpattern countpattern offsetpattern lengthfloatintegerhex byteexpression\
      operatorpattern modifier,  or , found ``, found end of fileexpecting unexpected `\
      unexpected end of fileunclosed commentunclosed literal stringunclosed regular expression\
      invalid UTF-8 characterexpecting import statement or rule definition";

// Where each begins; the last number is where the last ends.
const BEGINS: [usize; 99] = [
    0, 11, 18, 25, 38, 51, 56, 61, 66, 73, 77, 85, 97, 108, 118, 127, 137, 149, 156, 166, 171, 181,
    189, 200, 211, 220, 228, 232, 241, 254, 263, 269, 277, 283, 288, 292, 296, 305, 311, 323, 332,
    338, 344, 350, 355, 361, 365, 369, 373, 377, 380, 383, 387, 391, 394, 397, 400, 403, 406, 409,
    412, 415, 418, 421, 424, 427, 430, 433, 436, 439, 442, 445, 448, 462, 480, 490, 508, 521, 535,
    549, 554, 561, 569, 579, 587, 603, 605, 609, 618, 619, 638, 648, 660, 682, 698, 721, 748, 771,
    816,
];

// Past the last there is 0.
pub fn begins(n: usize) -> usize
    ensures { result ≡ get_or (starts 0 texts) n 0 }
{
    BEGINS.get(n).copied().unwrap_or(0)
}
