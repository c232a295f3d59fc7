// What is printed in more than one place: each answer is a line, of any length.
use calls::Refusal;

// How to use the program. Each text is written by itself, and where one cannot be written, that is said of it.
const HELP: [&str; 20] = [
    "gateway: answers calls of the H.223 gateway, one a line\n\n",
    "  gateway FILE    reads the calls from FILE\n",
    "  gateway         reads them from standard input\n",
    "  gateway --help  prints this\n\n",
    "Calls (words parted by spaces; OCTETS in hex, - for none; a line that begins with # is passed over):\n",
    "  length WIDTH E T\n",
    "  encode WIDTH E OCTETS [room N]\n",
    "  receive WIDTH E OCTETS [room REPAIR PLACES]\n",
    "  al1 OCTETS\n",
    "  open CHANNEL segmentable|whole    close CHANNEL    reset CHANNEL\n",
    "  entry CODE DESCRIPTOR             as in {LCN1,RC4},{{LCN2,RC1},{LCN3,RC2},RC UCF}\n",
    "  post CHANNEL OCTETS\n",
    "  mux CODE ROOM [lent N]\n",
    "  demux CODE MARK OCTETS [room OCTETS UNITS]\n",
    "  pack CODE MARK OCTETS [after MARK] [room N]\n",
    "  unpack OCTETS\n",
    "  link OCTETS\n",
    "  send CHANNEL numbered|plain OCTETS [room N]\n",
    "  take CHANNEL numbered|plain OCTETS\n\n",
    "Each is answered, refused with its number, or malformed where it cannot be read.\n",
];

pub fn help(rt: &(impl Print + Eprint)) {
    for text in HELP {
        print::text(rt, text.as_bytes());
    }
}

pub fn refused(rt: &(impl Print + Eprint), refusal: Refusal) {
    print::line(rt, format_args!("refused {refusal}"));
}
