// What the commands on an image share: what they may take for granted, what they leave, and the laws of lent parts. It has no function.
// `Ready` stands in the contracts and in no type that holds image and session: each command writes to parts of the image that is lent to it,
// so that the type would have to be left and proved again in every one, where `runs` proves once that what was ready stays so. How long the
// room and the data are stands in the contracts too: both are parts of slices that the host lends, and what is asked of them is the command's.
#![tactic(auto)]
